// Pieces of text stored in a lent room: bytes as they are, and the lines of the report.
ghost use Rattle.std.specs.Prelude.{◌≡◌, ◌∷◌, ◌+◌, ◌<◌, ◌≤◌, ◌%◌, length};
ghost use Rattle.rules.specs.Expressions.{pair};
ghost use Rattle.rules.specs.Output.{line_of};
ghost use Rattle.digits.specs.Digits.{laid};
ghost use Rattle.lines.specs.Alone.{left_from};

use digits::{low_byte, put_line};
use rules::Place;

// The bytes of s as they are, from `at` on.
pub fn put_text(out: &mut [u8], at: usize, s: &[u8])
    requires { at + length s.now ≤ length out.old }
    ensures { out.new ≡ laid out.old at s.now }
{
    // by hand: `copy_from_slice` of what is lent beside the room would ask for `memmove` from outside the archive
    for (k, c) in s.iter().enumerate() {
        out[at + k] = *c;
    }
}

// 7B, the number, the place in two bytes: nine characters.
pub fn put_replaced(out: &mut [u8], at: usize, number: u8, place: Place)
    requires { (at + 9 ≤ length out.old) × (place.0 < 65536) }
    ensures { out.new ≡ laid out.old at (line_of (0x7B ∷ number ∷ pair place.0)) }
{
    let i = place.0;
    let bytes = [0x7B, number, low_byte(i / 256), low_byte(i)];
    put_line(out, at, &bytes);
}

// 7C, the place in two bytes: seven characters.
pub fn put_left(out: &mut [u8], at: usize, place: Place)
    requires { (at + 7 ≤ length out.old) × (place.0 < 65536) }
    ensures { out.new ≡ laid out.old at (left_from place.0) }
{
    let i = place.0;
    let bytes = [0x7C, low_byte(i / 256), low_byte(i)];
    put_line(out, at, &bytes);
}
