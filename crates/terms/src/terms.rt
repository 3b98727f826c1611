// Expressions: the text of the tree whose bytes, in prefix order, a slice begins with.
ghost use Rattle.std.specs.Prelude.{◌≡◌, ℕ, ◌+◌, ◌*◌, ◌≤◌, ◌<◌, length};
ghost use Rattle.rules.specs.Expressions.{number_of, name_of};
ghost use Rattle.text.specs.Text.{sign1, sign2, number, name_text};
ghost use Rattle.terms.specs.Writing.{Wrote, Leafed, Told, before1, behind1};

use crate::Went;
use crate::pieces::{put, put_if, put_name, put_number};
use expression::tag_of;
use rules::{Op1, Op2, Tag};

fn prefix(o: Op1) -> u8
    ensures { result ≡ sign1 o }
{
    match o {
        Op1::Negate => b'-',
        Op1::Upper => b'>',
        Op1::Lower => b'<',
    }
}

fn infix(o: Op2) -> u8
    ensures { result ≡ sign2 o }
{
    match o {
        Op2::Plus => b'+',
        Op2::Minus => b'-',
        Op2::Times => b'*',
        Op2::Divide => b'/',
        Op2::Xor => b'^',
        Op2::And => b'&',
        Op2::Or => b'|',
    }
}

// What stands before the operand of a prefix operator.
fn open_one(out: &mut [u8; 1024], at: usize, o: Op1, inside: bool) -> usize
    requires { (length out.old ≡ 1024) × (at ≤ 1025) }
    ensures { Wrote out.old out.new at (before1 inside o) result }
{
    let a = put_if(out, at, b'(', inside);
    let b = put(out, a, prefix(o));
    put(out, b, b'(')
}

// What stands behind it.
fn shut_one(out: &mut [u8; 1024], at: usize, inside: bool) -> usize
    requires { (length out.old ≡ 1024) × (at ≤ 1025) }
    ensures { Wrote out.old out.new at (behind1 inside) result }
{
    let a = put(out, at, b')');
    put_if(out, a, b')', inside)
}

fn number_at(s: &[u8], out: &mut [u8; 1024], at: usize) -> Went
    requires { (length out.old ≡ 1024) × (at ≤ 1025) }
    ensures { let t = s.now in
        Leafed 5 (number (number_of t)) t out.old out.new at result.taken result.to }
{
    if s.len() < 5 {
        return Went { taken: 0, to: at };
    }
    let bits = u32::from_be_bytes([s[1], s[2], s[3], s[4]]);
    let to = put_number(out, at, bits);
    Went { taken: 5, to }
}

fn name_at(s: &[u8], out: &mut [u8; 1024], at: usize) -> Went
    requires { (length out.old ≡ 1024) × (at ≤ 1025) }
    ensures { let t = s.now in
        Leafed 3 (name_text (name_of t)) t out.old out.new at result.taken result.to }
{
    if s.len() < 3 {
        return Went { taken: 0, to: at };
    }
    let to = put_name(out, at, usize::from(u16::from_be_bytes([s[1], s[2]])));
    Went { taken: 3, to }
}

// The text of the expression that s begins with.
pub fn term(s: &[u8], out: &mut [u8; 1024], at: usize, inside: bool) -> Went
    requires { (length out.old ≡ 1024) × (at ≤ 1025) }
    ensures { Told inside s.now out.old out.new at result.taken result.to }
{
    if s.is_empty() {
        return Went { taken: 0, to: at };
    }
    match tag_of(s[0]) {
        Tag::Number => number_at(s, out, at),
        Tag::Name => name_at(s, out, at),
        Tag::One(o) => {
            let a = open_one(out, at, o, inside);
            let x = term(&s[1..], out, a, false);
            let b = x.to;
            let to = shut_one(out, b, inside);
            let taken = 1 + x.taken;
            Went { taken, to }
        }
        Tag::Two(o) => {
            let a = put_if(out, at, b'(', inside);
            let x = term(&s[1..], out, a, true);
            let k = 1 + x.taken;
            let b = x.to;
            let c = put(out, b, infix(o));
            let y = term(&s[k..], out, c, true);
            let d = y.to;
            let to = put_if(out, d, b')', inside);
            let taken = k + y.taken;
            Went { taken, to }
        }
        Tag::Bad => Went { taken: 0, to: at },
    }
}
