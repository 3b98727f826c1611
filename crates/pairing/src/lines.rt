// Where the lines of an accepted listing begin. A line is compared as it stands: two frames are the same where their digits are.
ghost use Rattle.std.specs.Prelude.{◌≡◌, true, ◌≤◌, ◌<◌, length};
ghost use Rattle.laws.specs.Lists.{same};
ghost use Rattle.rules.specs.Answers.{is_ok};
ghost use Rattle.rules.specs.Listing.{read_listing};
ghost use Rattle.pairing.specs.Lines.{chars_of, line_in, FirstAt, CountedAs, Lined};

use listing::{new_form, read_listing, take_line};
use rules::Refusal;

// How many statements a listing has, or its first refusal.
pub fn statements_of(text: &[u8]) -> Result<usize, Refusal>
    ensures { CountedAs result (read_listing text.now) }
{
    let mut frames = [0u8; 28672];
    let mut starts = [0u16; 4100];
    let mut lines = [0u32; 1024];
    read_listing(text, &mut frames, &mut starts, &mut lines)
}

// Where the first line begins that is a statement.
fn first_line(text: &[u8]) -> usize
    ensures { FirstAt text.now result }
{
    if new_form(text) { 5 } else { 0 }
}

// Where each line begins, and behind the last one the end of the text.
pub fn find_lines(text: &[u8], n: usize, starts: &mut [usize; 1025])
    requires { (is_ok (read_listing text.now) ≡ true) × (n ≡ length (chars_of text.now)) × (length starts.old ≡ 1025) }
    ensures { Lined text.now starts.new n }
{
    let first = first_line(text);
    starts[0] = first;
    let mut rest = &text[first..];
    for i in 0..n {
        rest = take_line(rest);
        starts[i + 1] = text.len() - rest.len();
    }
}

// Line i as it stands in the text.
pub fn line_at<'a>(text: &'a [u8], starts: &[usize; 1025], n: usize, i: usize) -> &'a [u8]
    requires { Lined text.now starts.now n × (i < n) }
    ensures { result.now ≡ line_in text.now i }
{
    let from = starts[i];
    let to = starts[i + 1] - 1;
    &text[from..to]
}

pub fn same_bytes(x: &[u8], y: &[u8]) -> bool
    ensures { result ≡ same x.now y.now }
{
    x == y
}
