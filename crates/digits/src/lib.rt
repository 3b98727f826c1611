// Numbers to bytes, and bytes to upper-case digit pairs, stored in a lent room; and the digits back.
#![tactic(auto)]

ghost use Rattle.std.specs.Prelude.{◌≡◌, ◌+◌, ◌*◌, ◌<◌, ◌≤◌, true, ◌/◌, ◌%◌, length};
ghost use Rattle.rules.specs.Listing.{is_digit, digit as digit_of};
ghost use Rattle.rules.specs.Output.{hex_digit, hex_byte, line_of};
ghost use Rattle.digits.specs.Digits.{hex_of, laid};

// The last eight bits of a number.
pub fn low_byte(x: usize) -> u8
    ensures { result ≡ x % 256 }
{
    (x % 256) as u8
}

// A number below sixteen as a digit.
pub fn hex_digit(d: u8) -> u8
    requires { d < 16 }
    ensures { result ≡ hex_digit d }
{
    if d < 10 { b'0' + d } else { b'A' + d - 10 }
}

pub fn is_digit(c: u8) -> bool
    ensures { result ≡ is_digit c }
{
    matches!(c, b'0'..=b'9' | b'A'..=b'F')
}

// The number of a digit.
pub fn digit(c: u8) -> u8
    requires { is_digit c ≡ true }
    ensures { (result ≡ digit_of c) × (result < 16) }
{
    if c <= b'9' { c - b'0' } else { c - b'A' + 10 }
}

// The two digits of a byte, the high one first.
pub fn put_byte(out: &mut [u8], at: usize, b: u8)
    requires { at + 2 ≤ length out.old }
    ensures { out.new ≡ laid out.old at (hex_byte b) }
{
    out[at] = hex_digit(b / 16);
    out[at + 1] = hex_digit(b % 16);
}

// The digits of the bytes of s, from `at` on.
pub fn put_bytes(out: &mut [u8], at: usize, s: &[u8])
    requires { at + 2 * length s.now ≤ length out.old }
    ensures { out.new ≡ laid out.old at (hex_of s.now) }
{
    for (k, b) in s.iter().enumerate() {
        put_byte(out, at + 2 * k, *b);
    }
}

// The line of a frame: its digits and a line feed.
pub fn put_line(out: &mut [u8], at: usize, frame: &[u8])
    requires { at + 2 * length frame.now < length out.old }
    ensures { out.new ≡ laid out.old at (line_of frame.now) }
{
    put_bytes(out, at, frame);
    out[at + 2 * frame.len()] = b'\n';
}
