// With a list: two bytes an entry, high byte first; entry k pairs statement k of the second listing.
ghost use Rattle.std.specs.Prelude.{◌≡◌, ◌&&◌, ◌≤◌, ◌<◌, leb, ltb, length, get_or, take};
ghost use Rattle.pairing.specs.Pairings.{entries_of, good_entries, pairs_from};
ghost use Rattle.pairing.specs.Tables.{pairs_in};

// An entry that is cut short counts.
pub fn entry_count(pairing: &[u8]) -> usize
    ensures { result ≡ length (entries_of pairing.now) }
{
    pairing.len().div_ceil(2)
}

// Entry k; one that is cut short lies beyond every listing.
fn entry(pairing: &[u8], k: usize) -> usize
    requires { k < length (entries_of pairing.now) }
    ensures { (result ≡ get_or (entries_of pairing.now) k 0) × (result ≤ 65536) }
{
    if 2 * k + 1 < pairing.len() {
        usize::from(u16::from_be_bytes([pairing[2 * k], pairing[2 * k + 1]]))
    } else {
        65536
    }
}

// Above the entry before it, and in both listings.
fn is_good(low: usize, i: usize, n: usize, k: usize, m: usize) -> bool
    ensures { result ≡ (leb low i && (ltb i n && ltb k m)) }
{
    low <= i && i < n && k < m
}

// The pairs of a list for listings of n and m statements, up to the first entry that is no good; how many they are.
pub fn take_entries(pairing: &[u8], n: usize, m: usize, pairs: &mut [usize; 2048]) -> usize
    requires { (n ≤ 1024) × (m ≤ 1024) × (length pairs.old ≡ 2048) }
    ensures { let is = entries_of pairing.now in (result ≡ good_entries n m is)
        × (pairs_in pairs.new result ≡ take result (pairs_from 0 is)) × (result ≤ 1024) }
{
    let count = entry_count(pairing);
    let mut low = 0;
    for k in 0..count {
        let i = entry(pairing, k);
        if !is_good(low, i, n, k, m) {
            return k;
        }
        pairs[k] = i;
        pairs[1024 + k] = k;
        low = i + 1;
    }
    count
}
