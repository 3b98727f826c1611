// The walk over two listings: up to each pair what is removed, then what is added, then the pair; and behind the last one the same.
ghost use Rattle.std.specs.Prelude.{◌≡◌, ◌+◌, ◌-◌, ◌*◌, ◌≤◌, ◌<◌, length, get_or};
ghost use Rattle.digits.specs.Digits.{laid};
ghost use Rattle.pairing.specs.Pairings.{frames_of};
ghost use Rattle.pairing.specs.Lines.{Lined};
ghost use Rattle.differences.specs.Walks.{Ready, run_text, text_for};

use crate::lines::{pair_size, put_one, put_pair};
use pairing::line_at;

const REMOVED: u8 = 0x71;

const ADDED: u8 = 0x72;

// How many statements the listings have, and how many pairs there are.
#[derive(Clone, Copy)]
pub struct Counts {
    pub first: usize,
    pub second: usize,
    pub pairs: usize,
}

// How many characters a run of removed or added ones has: its lines, and kind and place for each.
fn run_size(starts: &[usize; 1025], from: usize, to: usize) -> usize
    requires { (from ≤ to) × (to ≤ 1024)
        × (get_or starts.now from 0 ≤ get_or starts.now to 0) × (get_or starts.now to 0 ≤ 262144) }
    ensures { result ≡ get_or starts.now to 0 - get_or starts.now from 0 + 6 * (to - from) }
{
    starts[to] - starts[from] + 6 * (to - from)
}

// How many characters the differences have.
pub fn measure(
    first: &[u8],
    firsts: &[usize; 1025],
    second: &[u8],
    seconds: &[usize; 1025],
    counts: Counts,
    pairs: &[usize; 2048],
) -> usize
    requires { Ready first.now firsts.now second.now seconds.now pairs.now counts }
    ensures { result ≡ length (text_for first.now second.now pairs.now counts) }
{
    let n = counts.first;
    let m = counts.second;
    let mut size = 0;
    let mut i = 0;
    let mut j = 0;
    for k in 0..counts.pairs {
        let p = pairs[k];
        let q = pairs[1024 + k];
        size += run_size(firsts, i, p);
        size += run_size(seconds, j, q);
        size += pair_size(line_at(first, firsts, n, p), line_at(second, seconds, m, q));
        i = p + 1;
        j = q + 1;
    }
    size + run_size(firsts, i, n) + run_size(seconds, j, m)
}

// The lines of a run, from `at` on; where they end.
fn put_run(
    text: &[u8],
    starts: &[usize; 1025],
    n: usize,
    kind: u8,
    from: usize,
    to: usize,
    out: &mut [u8],
    at: usize,
) -> usize
    requires { Lined text.now starts.now n × (from ≤ to) × (to ≤ n)
        × (at + length (run_text kind (frames_of text.now) (to - from) from) ≤ length out.old) }
    ensures { let x = run_text kind (frames_of text.now) (to - from) from in
        (out.new ≡ laid out.old at x) × (result ≡ at + length x) }
{
    let mut a = at;
    for i in from..to {
        a = put_one(out, a, kind, i, line_at(text, starts, n, i));
    }
    a
}

// The differences at the front of the room.
pub fn put_all(
    first: &[u8],
    firsts: &[usize; 1025],
    second: &[u8],
    seconds: &[usize; 1025],
    counts: Counts,
    pairs: &[usize; 2048],
    out: &mut [u8],
)
    requires { Ready first.now firsts.now second.now seconds.now pairs.now counts
        × (length (text_for first.now second.now pairs.now counts) ≤ length out.old) }
    ensures { let x = text_for first.now second.now pairs.now counts in
        out.new ≡ laid out.old 0 x }
{
    let n = counts.first;
    let m = counts.second;
    let mut at = 0;
    let mut i = 0;
    let mut j = 0;
    for k in 0..counts.pairs {
        let p = pairs[k];
        let q = pairs[1024 + k];
        at = put_run(first, firsts, n, REMOVED, i, p, out, at);
        at = put_run(second, seconds, m, ADDED, j, q, out, at);
        at = put_pair(
            out,
            at,
            p,
            q,
            line_at(first, firsts, n, p),
            line_at(second, seconds, m, q),
        );
        i = p + 1;
        j = q + 1;
    }
    at = put_run(first, firsts, n, REMOVED, i, n, out, at);
    put_run(second, seconds, m, ADDED, j, m, out, at);
}
