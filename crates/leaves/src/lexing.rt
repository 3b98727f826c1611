// Bytes, spaces and digits at the front of a text.
ghost use Rattle.std.specs.Prelude.{◌≡◌, true, ℕ, ◌+◌, ◌*◌, ◌-◌, ◌^◌, ◌≤◌, ◌<◌, length, drop};
ghost use Rattle.grammar.specs.Reading.{is_decimal, look};
ghost use Rattle.text.specs.Text.{tens};
ghost use Rattle.grammar.specs.Going.{skip, digits, fixed};
ghost use Rattle.leaves.specs.Answering.{Valued, takes, after_of};

use crate::Found;

// The first byte; 0 at the end.
pub fn look(s: &[u8]) -> u8
    ensures { result ≡ look s.now }
{
    s.first().copied().unwrap_or(0)
}

pub fn is_decimal(c: u8) -> bool
    ensures { result ≡ is_decimal c }
{
    c.is_ascii_digit()
}

fn digit(c: u8) -> usize
    requires { is_decimal c ≡ true }
    ensures { (result ≡ c - 48) × (result ≤ 9) }
{
    usize::from(c - b'0')
}

// How many spaces come first.
pub fn spaces(s: &[u8]) -> usize
    ensures { (result ≤ length s.now) × (drop result s.now ≡ skip s.now) }
{
    s.iter().position(|c| *c != b' ').unwrap_or(s.len())
}

// The digits that come first, as a number of at most `most`.
pub fn digits(s: &[u8], most: usize) -> Found
    requires { most ≤ 2147483648 }
    ensures { Valued s.now (digits most 0 s.now) most result }
{
    let mut v = 0;
    for (i, &c) in s.iter().enumerate() {
        if !is_decimal(c) {
            return Ok((i, v));
        }
        let w = 10 * v + digit(c);
        if w > most {
            return Err(i);
        }
        v = w;
    }
    Ok((s.len(), v))
}

// A match: `pow` would take k as a u32.
fn tens(k: usize) -> usize
    requires { k < 5 }
    ensures { result ≡ tens k }
{
    match k {
        0 => 1,
        1 => 10,
        2 => 100,
        3 => 1000,
        _ => 10000,
    }
}

// The five digits of a name.
pub fn fixed(s: &[u8]) -> Found
    ensures { Valued s.now (fixed 32767 5 0 s.now) 32767 result }
{
    let mut v = 0;
    for i in 0..5 {
        if s.len() <= i || !is_decimal(s[i]) {
            return Err(i);
        }
        let w = 10 * v + digit(s[i]);
        if w * tens(4 - i) > 32767 {
            return Err(i);
        }
        v = w;
    }
    Ok((5, v))
}

// What was found behind k bytes, as of the whole text.
pub fn after(k: usize, r: Found) -> Found
    requires { k + takes r < 2 ^ 64 }
    ensures { result ≡ after_of k r }
{
    r.map(|(n, v)| (k + n, v)).map_err(|n| k + n)
}
