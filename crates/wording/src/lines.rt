// The lines of all but instructions, from their frames.
ghost use Rattle.std.specs.Prelude.{◌≡◌, List, [], ◌∷◌, ℕ, ◌+◌, ◌*◌, ◌≤◌, ◌<◌, pos, length, get_or, drop};
ghost use Rattle.laws.specs.Lists.{each};
ghost use Rattle.rules.specs.Expressions.{Expr, num, got, read_expr, bytes_of};
ghost use Rattle.rules.specs.Output.{hex_digit, hex_byte};
ghost use Rattle.rules.specs.Statements.{pair_at};
ghost use Rattle.terms.specs.Writing.{Wrote};
ghost use Rattle.wording.specs.Writing.{Itemed, Written, DataWritten};

use crate::words::put_dot_word;
use digits::hex_digit;
use terms::{digits, put, put_name, term};

// So many items of data, `by` before the first and a comma before each other.
pub fn items(s: &[u8], count: usize, out: &mut [u8; 1024], at: usize, by: u8) -> usize
    requires { (length out.old ≡ 1024) × (at ≤ 1025) }
    ensures { Itemed by s.now out.old out.new count at result }
{
    if count == 0 {
        return at;
    }
    let a = put(out, at, by);
    let x = term(s, out, a, false);
    let k = x.taken;
    let b = x.to;
    items(&s[k..], count - 1, out, b, b',')
}

// The two bytes behind the first.
fn pair(frame: &[u8]) -> usize
    requires { 3 ≤ length frame.now }
    ensures { (result ≡ pair_at frame.now 1) × (result < 65536) }
{
    usize::from(u16::from_be_bytes([frame[1], frame[2]]))
}

pub fn label_line(frame: &[u8], out: &mut [u8; 1024]) -> usize
    requires { (length out.old ≡ 1024) × (3 ≤ length frame.now) }
    ensures { Written 2 frame.now out.old out.new result }
{
    let n = pair(frame);
    let a = put_name(out, 0, n);
    put(out, a, b':')
}

pub fn variable_line(frame: &[u8], out: &mut [u8; 1024]) -> usize
    requires { (length out.old ≡ 1024) × (3 ≤ length frame.now) }
    ensures { Written 3 frame.now out.old out.new result }
{
    let n = pair(frame);
    let a = put_name(out, 0, n);
    let b = put(out, a, b'=');
    let x = term(&frame[3..], out, b, false);
    x.to
}

pub fn org_line(frame: &[u8], out: &mut [u8; 1024]) -> usize
    requires { (length out.old ≡ 1024) × (3 ≤ length frame.now) }
    ensures { Written 5 frame.now out.old out.new result }
{
    let n = pair(frame);
    let a = put_dot_word(out, 5);
    let b = put(out, a, b' ');
    digits(out, b, n)
}

// Bytes and words, by the kind of the frame.
pub fn data_line(frame: &[u8], out: &mut [u8; 1024]) -> usize
    requires { (length out.old ≡ 1024) × (2 ≤ length frame.now) × (6 ≤ get_or frame.now 0 0) × (get_or frame.now 0 0 ≤ 7) }
    ensures { DataWritten frame.now out.old out.new result }
{
    let n = usize::from(frame[1]);
    let a = put_dot_word(out, frame[0]);
    items(&frame[2..], n, out, a, b' ')
}

// A pad: what it adds, and its multiple.
pub fn pad_line(frame: &[u8], out: &mut [u8; 1024]) -> usize
    requires { (length out.old ≡ 1024) × (4 ≤ length frame.now) }
    ensures { Written 8 frame.now out.old out.new result }
{
    let add = usize::from(frame[1]);
    let m = pair(&frame[1..]);
    let a = put_dot_word(out, 8);
    let b = put(out, a, b' ');
    let c = digits(out, b, add);
    let d = put(out, c, b',');
    digits(out, d, m)
}

// Bytes as upper-case digit pairs.
fn pairs(s: &[u8], out: &mut [u8; 1024], at: usize) -> usize
    requires { (length out.old ≡ 1024) × (at ≤ 1025) }
    ensures { Wrote out.old out.new at (each (λ b. hex_byte b) s.now) result }
{
    if s.is_empty() {
        return at;
    }
    let a = put(out, at, hex_digit(s[0] / 16));
    let b = put(out, a, hex_digit(s[0] % 16));
    pairs(&s[1..], out, b)
}

pub fn comment_line(frame: &[u8], out: &mut [u8; 1024]) -> usize
    requires { (length out.old ≡ 1024) × (1 ≤ length frame.now) }
    ensures { Written 4 frame.now out.old out.new result }
{
    let a = put_dot_word(out, 4);
    if frame.len() < 2 {
        return a;
    }
    let b = put(out, a, b' ');
    pairs(&frame[1..], out, b)
}
