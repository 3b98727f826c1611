// A transfer as a line: 74, whether it is marked, its place and the one whose target it carries, and what that target came to and comes to.
ghost use Rattle.std.specs.Prelude.{◌≡◌, ◌∷◌, ◌++◌, ◌+◌, ◌%◌, ◌≤◌, ◌<◌, length};
ghost use Rattle.rules.specs.Expressions.{pair};
ghost use Rattle.rules.specs.Output.{line_of};
ghost use Rattle.rules.specs.Programs.{Program};
ghost use Rattle.digits.specs.Digits.{laid};
ghost use Rattle.targets.specs.Targets.{target_at, target_line, mark_byte};
ghost use Rattle.targets.specs.Aimed.{same_bytes, AimIs};
ghost use Rattle.targets.specs.Entry.{mark_of};

use digits::{low_byte, put_bytes};

// Both name a byte, of one statement and at one offset. No place has FF for its high byte.
fn is_same(b: [u8; 8], a: [u8; 8]) -> bool
    ensures { result ≡ same_bytes b a }
{
    b[4] != 255 && b[4..] == a[4..]
}

fn mark_byte(same: bool) -> u8
    ensures { result ≡ mark_byte same }
{
    u8::from(!same)
}

fn head_bytes(mark: u8, i: usize, c: usize) -> [u8; 6]
    requires { (i < 65536) × (c < 65536) }
    ensures { result ≡ 0x74 ∷ mark ∷ (pair i ++ pair c) }
{
    [
        0x74,
        mark,
        low_byte(i / 256),
        low_byte(i),
        low_byte(c / 256),
        low_byte(c),
    ]
}

// The line of a transfer: 45 characters, from `at` on.
fn put_parts(out: &mut [u8], at: usize, head: &[u8; 6], b: &[u8; 8], a: &[u8; 8])
    requires { (at + 45 ≤ length out.old) × (length head.now ≡ 6) × (length b.now ≡ 8) × (length a.now ≡ 8) }
    ensures { out.new
        ≡ laid out.old at (line_of (head.now ++ (b.now ++ a.now))) }
{
    put_bytes(out, at, head);
    put_bytes(out, at + 12, b);
    put_bytes(out, at + 28, a);
    out[at + 44] = b'\n';
}

// The line of the transfer at place i of the end form, which carries the target of place c; whether it is marked, as a number.
pub fn put_target(out: &mut [u8], at: usize, i: usize, c: usize, b: [u8; 8], a: [u8; 8]) -> usize
    requires { (at + 45 ≤ length out.old) × (i < 65536) × (c < 65536) × (length b ≡ 8) × (length a ≡ 8) }
    ensures { (p e : Program) → AimIs p c b → AimIs e i a
        → (out.new ≡ laid out.old at (target_line (target_at p e i c))) × (result ≡ mark_of (target_at p e i c)) }
{
    let mark = mark_byte(is_same(b, a));
    let head = head_bytes(mark, i, c);
    put_parts(out, at, &head, &b, &a);
    usize::from(mark)
}
