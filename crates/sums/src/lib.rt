// Expressions: the readers of operands, products and sums call each other; the text that remains falls. Each leaves the bytes of its tree
// in the room, from `at` on.
#![tactic(auto)]

ghost use Rattle.std.specs.Prelude.{◌≡◌, ℕ, ◌+◌, ◌≤◌, ◌<◌, length, drop};
ghost use Rattle.rules.specs.declared.Op2.{Op2};
ghost use Rattle.rules.specs.Expressions.{code2};
ghost use Rattle.grammar.specs.Reading.{look, level_of};
ghost use Rattle.grammar.specs.Going.{got, skip, gap, close, alone, whole, op_at, infix_of};
ghost use Rattle.leaves.specs.Answering.{Answered, Continued, Passed, takes, code_of};

use leaves::Found;
use leaves::lexing::{after, look, spaces};
use leaves::operands::{leaf, sign_of};
use leaves::storing::insert;

// The byte of the infix operator that a byte is; 0 where it is none.
fn infix_of(c: u8) -> u8
    ensures { result ≡ code_of (infix_of c) }
{
    match c {
        b'*' => 0x12,
        b'/' => 0x13,
        b'+' => 0x10,
        b'-' => 0x11,
        b'&' => 0x15,
        b'^' => 0x14,
        b'|' => 0x16,
        _ => 0,
    }
}

// The level of the operator with a byte.
fn level_of(code: u8) -> usize
    ensures { (o : Op2) → code ≡ code2 o → result ≡ level_of o }
{
    match code {
        0x12 | 0x13 => 1,
        0x10 | 0x11 => 2,
        0x15 => 3,
        0x14 => 4,
        _ => 5,
    }
}

// The byte of the operator of a level that a byte is; 0 where it is none.
fn op_at(level: usize, c: u8) -> u8
    ensures { result ≡ code_of (op_at level c) }
{
    let code = infix_of(c);
    if code == 0 || level_of(code) != level {
        0
    } else {
        code
    }
}

// The first byte and the spaces behind it.
fn past(s: &[u8]) -> usize
    requires { 1 ≤ length s.now }
    ensures { (1 ≤ result) × (result ≤ length s.now) × (drop result s.now ≡ skip (drop 1 s.now)) }
{
    1 + spaces(&s[1..])
}

// The sign that comes first, with the spaces before and behind it.
fn past_sign(s: &[u8]) -> usize
    requires { 1 ≤ length (skip s.now) }
    ensures { (1 ≤ result) × (result ≤ length s.now) × (drop result s.now ≡ skip (drop 1 (skip s.now))) }
{
    let j = spaces(s);
    j + past(&s[j..])
}

// The spaces behind an operand that ends at n: an operator follows them.
fn trail(s: &[u8], n: usize, to: usize) -> Found
    requires { n ≤ length s.now }
    ensures { Passed s.now to (λ e. gap e (drop n s.now)) result }
{
    let t = &s[n..];
    let k = n + spaces(t);
    if k > n && infix_of(look(&s[k..])) == 0 {
        return Err(k);
    }
    Ok((k, to))
}

// The closing parenthesis at k.
fn closing(s: &[u8], k: usize, to: usize) -> Found
    requires { k ≤ length s.now }
    ensures { Passed s.now to (λ e. close (got e (drop k s.now))) result }
{
    if k < s.len() && s[k] == b')' {
        return Ok((k + 1, to));
    }
    Err(k)
}

// An operand without the spaces behind it: in parentheses, behind a sign, or a number or a name.
#[cycle(atom_more_operand_product_sum_tier)]
fn atom(s: &[u8], out: &mut [u8; 32], at: usize) -> Found
    requires { (length out.old ≡ 32) × (at ≤ 33) }
    ensures { Answered alone s.now out.old out.new at result }
{
    if look(s) == b'(' {
        let (n, to) = after(1, tier(5, &s[1..], out, at))?;
        return closing(s, n, to);
    }
    let code = sign_of(s);
    if code == 0 {
        return leaf(s, out, at);
    }
    let k = past_sign(s);
    let (n, end) = after(k, atom(&s[k..], out, at))?;
    Ok((n, insert(out, at, end, code)))
}

#[cycle(atom_more_operand_product_sum_tier)]
fn operand(s: &[u8], out: &mut [u8; 32], at: usize) -> Found
    requires { (length out.old ≡ 32) × (at ≤ 33) }
    ensures { Answered (whole 0) s.now out.old out.new at result }
{
    let (n, to) = atom(s, out, at)?;
    trail(s, n, to)
}

// "a product of operands"
#[cycle(atom_more_operand_product_sum_tier)]
fn product(s: &[u8], out: &mut [u8; 32], at: usize) -> Found
    requires { (length out.old ≡ 32) × (at ≤ 33) }
    ensures { Answered (whole 1) s.now out.old out.new at result }
{
    let (n, to) = operand(s, out, at)?;
    after(n, more(0, &s[n..], out, at, to))
}

// "A sum is made of products"
#[cycle(atom_more_operand_product_sum_tier)]
fn sum(s: &[u8], out: &mut [u8; 32], at: usize) -> Found
    requires { (length out.old ≡ 32) × (at ≤ 33) }
    ensures { Answered (whole 2) s.now out.old out.new at result }
{
    let (n, to) = product(s, out, at)?;
    after(n, more(1, &s[n..], out, at, to))
}

// An expression of any level: an operand 0, a product 1, a sum 2, then those of `&`, `^` and `|`.
#[cycle(atom_more_operand_product_sum_tier)]
fn tier(level: usize, s: &[u8], out: &mut [u8; 32], at: usize) -> Found
    requires { (length out.old ≡ 32) × (at ≤ 33) × (level ≤ 5) }
    ensures { Answered (whole level) s.now out.old out.new at result }
{
    match level {
        0 => return operand(s, out, at),
        1 => return product(s, out, at),
        2 => return sum(s, out, at),
        _ => {}
    }
    let below = level - 1;
    let (n, to) = tier(below, s, out, at)?;
    after(n, more(below, &s[n..], out, at, to))
}

// What follows in a chain of level + 1 whose left operand stands from `at` to `to`.
#[cycle(atom_more_operand_product_sum_tier)]
fn more(level: usize, s: &[u8], out: &mut [u8; 32], at: usize, to: usize) -> Found
    requires { (length out.old ≡ 32) × (to ≤ 33) × (to ≤ 32 → at ≤ to) × (level ≤ 4) }
    ensures { (takes result ≤ length s.now) × Continued level s.now out.old out.new at to result }
{
    let code = op_at(level + 1, look(s));
    if code == 0 {
        return Ok((0, to));
    }
    let k = past(s);
    let (n, end) = after(k, tier(level, &s[k..], out, to))?;
    let top = insert(out, at, end, code);
    after(n, more(level, &s[n..], out, at, top))
}

// The expression that a text begins with, and its bytes.
pub fn expression(s: &[u8], out: &mut [u8; 32]) -> Found
    requires { length out.old ≡ 32 }
    ensures { Answered (whole 5) s.now out.old out.new 0 result }
{
    tier(5, s, out, 0)
}
