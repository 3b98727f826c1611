// C-19: a frame's bytes, laid one behind the other in a room of 120. The end is 121 where they have no room, or an expression none in its
// 32; then nothing more is laid, and reading goes on.
#![tactic(auto)]

ghost use Rattle.std.specs.Prelude.{◌≡◌, [], ◌∷◌, ℕ, ◌+◌, ◌≤◌, ◌<◌, length, drop};
ghost use Rattle.laying.specs.Laying.{Added, Copied, Termed};

use leaves::Found;
use leaves::lexing::after;
use sums::expression;

// A line: where its frame ends in the room, 121 where it passes a limit; or the byte that no good line could have there.
pub type Told = Result<usize, usize>;

pub fn put(out: &mut [u8; 120], at: usize, b: u8) -> usize
    requires { (length out.old ≡ 120) × (at ≤ 121) }
    ensures { Added out.old out.new at result (b ∷ []) 0 }
{
    if at > 119 {
        return 121;
    }
    out[at] = b;
    at + 1
}

// The first n bytes of an expression's room; it is too long where n is 33.
fn put_term(out: &mut [u8; 120], at: usize, from: &[u8; 32], n: usize) -> usize
    requires { (length out.old ≡ 120) × (length from.now ≡ 32) × (at ≤ 121) }
    ensures { Copied out.old out.new at result from.now n }
{
    if n > 32 || at + n > 120 {
        return 121;
    }
    out[at..at + n].copy_from_slice(&from[..n]);
    at + n
}

// The expression at k, and its bytes.
pub fn term(s: &[u8], k: usize, out: &mut [u8; 120], at: usize) -> Found
    requires { (k ≤ length s.now) × (length out.old ≡ 120) × (at ≤ 121) }
    ensures { Termed s.now k out.old out.new at result }
{
    let mut room = [0u8; 32];
    let (n, end) = after(k, expression(&s[k..], &mut room))?;
    Ok((n, put_term(out, at, &room, end)))
}
