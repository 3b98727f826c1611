// What several kinds of line have in common: their end, a number, and the first bytes of their frames.
ghost use Rattle.std.specs.Prelude.{◌≡◌, ◌∷◌, ℕ, ◌+◌, ◌%◌, ◌≤◌, ◌<◌, length, drop};
ghost use Rattle.rules.specs.Expressions.{pair};
ghost use Rattle.rules.specs.Programs.{variable};
ghost use Rattle.plans.specs.Plans.{done, expression};
ghost use Rattle.laying.specs.Laying.{Stands};
ghost use Rattle.laying.specs.Speaking.{Spoken, Counted, ends_at};

use digits::low_byte;
use laying::{Told, put};
use leaves::Found;
use leaves::lexing::{after, digits, is_decimal, look};

// The line has to end at k.
pub fn ended(s: &[u8], k: usize, to: usize) -> Told
    ensures { result ≡ ends_at (length s.now) k to }
{
    if k < s.len() {
        return Err(k);
    }
    Ok(to)
}

// The number at k, of at most `most`.
pub fn number(s: &[u8], k: usize, most: usize) -> Found
    requires { (k ≤ length s.now) × (most ≤ 2147483648) }
    ensures { Counted s.now k most result }
{
    let t = &s[k..];
    if !is_decimal(look(t)) {
        return Err(k);
    }
    after(k, digits(t, most))
}

// A kind and two bytes behind it.
pub fn put_head(out: &mut [u8; 120], kind: u8, word: usize) -> usize
    requires { (length out.old ≡ 120) × (word < 65536) }
    ensures { Stands out.new result (kind ∷ pair word) 0 }
{
    let a = put(out, 0, kind);
    let b = put(out, a, low_byte(word / 256));
    put(out, b, low_byte(word))
}
