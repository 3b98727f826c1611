// Mnemonics and dot words, out of the table of fixed byte strings.
ghost use Rattle.std.specs.Prelude.{◌≡◌, ◌≤◌, ◌<◌, length};
ghost use Rattle.text.specs.Text.{mnemonic as mnemonic_of};
ghost use Rattle.text.specs.Words.{said, dot_word};
ghost use Rattle.terms.specs.Writing.{Wrote};

use terms::put;
use text::{dot_word, mnemonic};

// The bytes of s before its first space.
fn put_word(s: &[u8], out: &mut [u8; 1024], at: usize) -> usize
    requires { (length out.old ≡ 1024) × (at ≤ 1025) }
    ensures { Wrote out.old out.new at (said s.now) result }
{
    if s.is_empty() || s[0] == b' ' {
        return at;
    }
    let to = put(out, at, s[0]);
    put_word(&s[1..], out, to)
}

pub fn put_mnemonic(out: &mut [u8; 1024], form: u8) -> usize
    requires { (length out.old ≡ 1024) × (form < 70) }
    ensures { Wrote out.old out.new 0 (mnemonic_of form) result }
{
    let word = mnemonic(form);
    put_word(&word, out, 0)
}

pub fn put_dot_word(out: &mut [u8; 1024], kind: u8) -> usize
    requires { (length out.old ≡ 1024) × (4 ≤ kind) × (kind ≤ 8) }
    ensures { Wrote out.old out.new 0 (dot_word kind) result }
{
    let word = dot_word(kind);
    put_word(&word, out, 0)
}
