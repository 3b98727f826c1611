// The operands that are numbers and names, and the signs before an operand.
ghost use Rattle.std.specs.Prelude.{◌≡◌, true, ℕ, ◌+◌, ◌≤◌, ◌<◌, length, drop, pos, neg_ℤ};
ghost use Rattle.std.specs.Int.{w32};
ghost use Rattle.std.proofs.Common.{of_z};
ghost use Rattle.grammar.specs.Reading.{is_decimal, look};
ghost use Rattle.grammar.specs.Going.{nothing, led, start, alone};
ghost use Rattle.leaves.specs.Answering.{Answered, sign_code};

use crate::Found;
use crate::lexing::{after, digits, fixed, is_decimal, look, spaces};
use crate::storing::{put_name, put_number};

// The byte of the prefix sign that comes first; 0 where none does.
fn sign_at(s: &[u8]) -> u8
    ensures { result ≡ sign_code (led s.now) }
{
    match look(s) {
        b'>' => 0x21,
        b'<' => 0x22,
        b'-' if !is_decimal(look(&s[1..])) => 0x20,
        _ => 0,
    }
}

// Spaces may stand before it.
pub fn sign_of(s: &[u8]) -> u8
    ensures { result ≡ sign_code (start s.now) }
{
    let j = spaces(s);
    sign_at(&s[j..])
}

// Spaces that no sign follows, up to the byte that no good line could have there: a minus touches a digit, and that is the byte.
fn blank(s: &[u8]) -> usize
    requires { (look s.now ≡ 32) × (sign_code (start s.now) ≡ 0) }
    ensures { (start s.now ≡ nothing (drop result s.now)) × (result ≤ length s.now) }
{
    let j = spaces(s);
    if look(&s[j..]) == b'-' {
        return j + 1;
    }
    j
}

fn plain(s: &[u8], out: &mut [u8; 32], at: usize) -> Found
    requires { (length out.old ≡ 32) × (at ≤ 33) × (is_decimal (look s.now) ≡ true) }
    ensures { Answered alone s.now out.old out.new at result }
{
    let (n, v) = digits(s, 2147483647)?;
    Ok((n, put_number(out, at, v as u32)))
}

fn minus(s: &[u8], out: &mut [u8; 32], at: usize) -> Found
    requires { (length out.old ≡ 32) × (at ≤ 33) × (look s.now ≡ 45) × (is_decimal (look (drop 1 s.now)) ≡ true) }
    ensures { Answered alone s.now out.old out.new at result }
{
    let (n, v) = after(1, digits(&s[1..], 2147483648))?;
    Ok((n, put_number(out, at, negative(v))))
}

fn global(s: &[u8], out: &mut [u8; 32], at: usize) -> Found
    requires { (length out.old ≡ 32) × (at ≤ 33) × (look s.now ≡ 103) }
    ensures { Answered alone s.now out.old out.new at result }
{
    let (n, v) = after(1, fixed(&s[1..]))?;
    Ok((n, put_name(out, at, v as u32)))
}

fn local(s: &[u8], out: &mut [u8; 32], at: usize) -> Found
    requires { (length out.old ≡ 32) × (at ≤ 33) × (look s.now ≡ 46) }
    ensures { Answered alone s.now out.old out.new at result }
{
    if look(&s[1..]) != b'l' {
        return Err(1);
    }
    let (n, v) = after(2, fixed(&s[2..]))?;
    Ok((n, put_name(out, at, 0x8000 + v as u32)))
}

// An operand that is neither in parentheses nor behind a sign.
pub fn leaf(s: &[u8], out: &mut [u8; 32], at: usize) -> Found
    requires { (length out.old ≡ 32) × (at ≤ 33) × (sign_code (start s.now) ≡ 0) × (look s.now ≡ 40 → ⊥) }
    ensures { Answered alone s.now out.old out.new at result }
{
    match look(s) {
        b'0'..=b'9' => plain(s, out, at),
        b'-' => minus(s, out, at),
        b'g' => global(s, out, at),
        b'.' => local(s, out, at),
        b' ' => Err(blank(s)),
        _ => Err(0),
    }
}

// The four bytes of -v, as a number.
fn negative(v: usize) -> u32
    requires { v ≤ 2147483648 }
    ensures { result ≡ of_z w32 (neg_ℤ (pos v)) }
{
    (v as u32).wrapping_neg()
}
