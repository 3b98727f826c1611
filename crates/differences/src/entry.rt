// The entry: 1 and 2 of the first listing, the second's form, its 1 and 2, 13, 12, and then the text.
ghost use Rattle.std.specs.Prelude.{◌≡◌, true, ◌≤◌, length};
ghost use Rattle.rules.specs.Answers.{is_ok};
ghost use Rattle.rules.specs.Listing.{lines_of, form_in, read_listing};
ghost use Rattle.pairing.specs.Pairings.{frames_of};
ghost use Rattle.pairing.specs.Lines.{chars_of, Lined};
ghost use Rattle.differences.specs.Differences.{of_both, text, after, same_form, compared, differences as differences_of};
ghost use Rattle.differences.specs.Entry.{given_as, PairedAs, roomed, Leaves};
ghost use Rattle.differences.specs.Walks.{Ready, text_for};

use crate::walks::{Counts, measure, put_all};
use listing::new_form;
use pairing::{entry_count, find_lines, pair_alike, statements_of, take_entries};
use rules::{Place, Refusal};

// Whose refusal it is: the first listing's, the second's, or that of both with their pairing.
#[derive(Clone, Copy)]
pub enum Whose {
    OfFirst(Refusal),
    OfSecond(Refusal),
    OfBoth(Refusal),
}

// Whether both listings have source lines, or neither.
fn same_form(first: &[u8], second: &[u8]) -> bool
    ensures { result ≡ same_form (form_in (lines_of first.now)) (form_in (lines_of second.now)) }
{
    let lined = new_form(first);
    lined == new_form(second)
}

// The pairs of a list, if there is one, or of what both begin and end with: how many, or 13.
fn pair_up(
    first: &[u8],
    firsts: &[usize; 1025],
    n: usize,
    second: &[u8],
    seconds: &[usize; 1025],
    m: usize,
    pairing: Option<&[u8]>,
    pairs: &mut [usize; 2048],
) -> Result<usize, Refusal>
    requires { Lined first.now firsts.now n × Lined second.now seconds.now m × (length pairs.old ≡ 2048) }
    ensures { PairedAs (frames_of first.now) (frames_of second.now) (given_as pairing.entry)
        pairs.new result }
{
    let Some(list) = pairing else {
        return Ok(pair_alike(first, firsts, n, second, seconds, m, pairs));
    };
    let good = take_entries(list, n, m, pairs);
    if good < entry_count(list) {
        return Err(Refusal::Pairing(good));
    }
    Ok(good)
}

// The text of two listings whose lines are found and paired, if the room holds it.
fn write_differences(
    first: &[u8],
    firsts: &[usize; 1025],
    second: &[u8],
    seconds: &[usize; 1025],
    counts: Counts,
    pairs: &[usize; 2048],
    out: &mut [u8],
) -> Result<usize, Whose>
    requires { Ready first.now firsts.now second.now seconds.now pairs.now counts }
    ensures { let t = text_for first.now second.now pairs.now counts in
        Leaves (roomed t counts.first (length out.old)) result out.old out.new }
{
    let size = measure(first, firsts, second, seconds, counts, pairs);
    if out.len() < size {
        return Err(Whose::OfBoth(Refusal::Room(counts.first)));
    }
    put_all(first, firsts, second, seconds, counts, pairs, out);
    Ok(size)
}

// The differences of two accepted listings of n and m statements.
fn compare(
    first: &[u8],
    n: usize,
    second: &[u8],
    m: usize,
    pairing: Option<&[u8]>,
    out: &mut [u8],
) -> Result<usize, Whose>
    requires { (is_ok (read_listing first.now) ≡ true) × (n ≡ length (chars_of first.now))
        × (is_ok (read_listing second.now) ≡ true) × (m ≡ length (chars_of second.now)) }
    ensures { let x = compared (frames_of first.now) (frames_of second.now)
        (given_as pairing.entry) n (length out.old) in
        Leaves (after of_both x text) result out.old out.new }
{
    let mut firsts = [0usize; 1025];
    let mut seconds = [0usize; 1025];
    let mut pairs = [0usize; 2048];
    find_lines(first, n, &mut firsts);
    find_lines(second, m, &mut seconds);
    let k = pair_up(first, &firsts, n, second, &seconds, m, pairing, &mut pairs).map_err(
        Whose::OfBoth,
    )?;
    let counts = Counts {
        first: n,
        second: m,
        pairs: k,
    };
    write_differences(first, &firsts, second, &seconds, counts, &pairs, out)
}

// The differences of two listings, under a pairing if one is given: how many bytes were written, or the first refusal. On refusal no lent
// byte changes.
pub fn differences(
    first: &[u8],
    second: &[u8],
    pairing: Option<&[u8]>,
    out: &mut [u8],
) -> Result<usize, Whose>
    ensures { let x = differences_of first.now second.now (given_as pairing.entry)
        (length out.old) in
        Leaves x result out.old out.new }
{
    let n = statements_of(first).map_err(Whose::OfFirst)?;
    if !same_form(first, second) {
        return Err(Whose::OfSecond(Refusal::Broken(Place(0))));
    }
    let m = statements_of(second).map_err(Whose::OfSecond)?;
    compare(first, n, second, m, pairing, out)
}
