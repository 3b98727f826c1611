// Without a list: the lines that both listings begin with are paired, then those that the rest of both ends with.
ghost use Rattle.std.specs.Prelude.{◌≡◌, [], ◌++◌, ◌+◌, ◌≤◌, ◌<◌, length, get_or};
ghost use Rattle.laws.specs.Lists.{same};
ghost use Rattle.pairing.specs.Pairings.{frames_of, beginning, ending, run_of, default_pairs};
ghost use Rattle.pairing.specs.Lines.{Lined};
ghost use Rattle.pairing.specs.Tables.{pairs_in};

use crate::lines::{line_at, same_bytes};

// Whether the frame at i is the one at j.
fn same_frame(
    first: &[u8],
    firsts: &[usize; 1025],
    n: usize,
    i: usize,
    second: &[u8],
    seconds: &[usize; 1025],
    m: usize,
    j: usize,
) -> bool
    requires { Lined first.now firsts.now n × Lined second.now seconds.now m × (i < n) × (j < m) }
    ensures { result ≡ same (get_or (frames_of first.now) i []) (get_or (frames_of second.now) j []) }
{
    same_bytes(line_at(first, firsts, n, i), line_at(second, seconds, m, j))
}

// How many frames both begin with.
fn alike_first(
    first: &[u8],
    firsts: &[usize; 1025],
    n: usize,
    second: &[u8],
    seconds: &[usize; 1025],
    m: usize,
) -> usize
    requires { Lined first.now firsts.now n × Lined second.now seconds.now m }
    ensures { (result ≡ beginning (frames_of first.now) (frames_of second.now)) × (result ≤ n) × (result ≤ m) }
{
    let most = n.min(m);
    (0..most)
        .find(|k| !same_frame(first, firsts, n, *k, second, seconds, m, *k))
        .unwrap_or(most)
}

// How many frames both end with, behind the b that they begin with.
fn alike_last(
    first: &[u8],
    firsts: &[usize; 1025],
    n: usize,
    second: &[u8],
    seconds: &[usize; 1025],
    m: usize,
    b: usize,
) -> usize
    requires { Lined first.now firsts.now n × Lined second.now seconds.now m
        × (b ≡ beginning (frames_of first.now) (frames_of second.now)) × (b ≤ n) × (b ≤ m) }
    ensures { (result ≡ ending (frames_of first.now) (frames_of second.now)) × (b + result ≤ n) × (b + result ≤ m) }
{
    let most = n.min(m) - b;
    (0..most)
        .find(|k| !same_frame(first, firsts, n, n - 1 - *k, second, seconds, m, m - 1 - *k))
        .unwrap_or(most)
}

// A run of n pairs from i and j on, behind those that the table has.
fn put_run(pairs: &mut [usize; 2048], at: usize, i: usize, j: usize, n: usize)
    requires { (at + n ≤ 1024) × (i + n ≤ 1024) × (j + n ≤ 1024) × (length pairs.old ≡ 2048) }
    ensures { (pairs_in pairs.new (at + n) ≡ pairs_in pairs.old at ++ run_of n i j)
        × (length pairs.new ≡ 2048) }
{
    for k in 0..n {
        let e = at + k;
        pairs[e] = i + k;
        pairs[1024 + e] = j + k;
    }
}

// The pairs of two listings without a list; how many they are.
pub fn pair_alike(
    first: &[u8],
    firsts: &[usize; 1025],
    n: usize,
    second: &[u8],
    seconds: &[usize; 1025],
    m: usize,
    pairs: &mut [usize; 2048],
) -> usize
    requires { Lined first.now firsts.now n × Lined second.now seconds.now m × (length pairs.old ≡ 2048) }
    ensures { (pairs_in pairs.new result ≡ default_pairs (frames_of first.now) (frames_of second.now))
        × (result ≤ 1024) }
{
    let b = alike_first(first, firsts, n, second, seconds, m);
    let e = alike_last(first, firsts, n, second, seconds, m, b);
    put_run(pairs, 0, 0, 0, b);
    put_run(pairs, b, n - e, m - e, e);
    b + e
}
