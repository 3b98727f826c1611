// Bytes, numbers and names.
ghost use Rattle.std.specs.Prelude.{◌≡◌, [], ◌∷◌, cond, ℕ, ◌+◌, ◌≤◌, ◌<◌, length};
ghost use Rattle.std.specs.Int.{w32};
ghost use Rattle.std.proofs.Common.{to_z};
ghost use Rattle.text.specs.Text.{five, name_text, number};
ghost use Rattle.terms.specs.Writing.{Wrote, Digited};

pub fn put(out: &mut [u8; 1024], at: usize, c: u8) -> usize
    requires { (length out.old ≡ 1024) × (at ≤ 1025) }
    ensures { Wrote out.old out.new at (c ∷ []) result }
{
    if at > 1023 {
        return 1025;
    }
    out[at] = c;
    at + 1
}

// A byte, if it is asked for.
pub fn put_if(out: &mut [u8; 1024], at: usize, c: u8, wanted: bool) -> usize
    requires { (length out.old ≡ 1024) × (at ≤ 1025) }
    ensures { Wrote out.old out.new at (cond wanted (c ∷ []) []) result }
{
    if wanted {
        return put(out, at, c);
    }
    at
}

fn digit(d: usize) -> u8
    requires { d < 10 }
    ensures { result ≡ 48 + d }
{
    b'0' + d as u8
}

// A number in decimal.
pub fn digits(out: &mut [u8; 1024], at: usize, n: usize) -> usize
    requires { (length out.old ≡ 1024) × (at ≤ 1025) × (n < 10000000000) }
    ensures { Digited out.old out.new at n result }
{
    if n < 10 {
        return put(out, at, digit(n));
    }
    let to = digits(out, at, n / 10);
    put(out, to, digit(n % 10))
}

fn five(out: &mut [u8; 1024], at: usize, n: usize) -> usize
    requires { (length out.old ≡ 1024) × (at ≤ 1025) × (n < 32768) }
    ensures { Wrote out.old out.new at (five n) result }
{
    let a = put(out, at, digit(n / 10000));
    let b = put(out, a, digit(n / 1000 % 10));
    let c = put(out, b, digit(n / 100 % 10));
    let d = put(out, c, digit(n / 10 % 10));
    put(out, d, digit(n % 10))
}

pub fn put_name(out: &mut [u8; 1024], at: usize, n: usize) -> usize
    requires { (length out.old ≡ 1024) × (at ≤ 1025) × (n < 65536) }
    ensures { Wrote out.old out.new at (name_text n) result }
{
    if n < 0x8000 {
        let a = put(out, at, b'g');
        return five(out, a, n);
    }
    let a = put(out, at, b'.');
    let b = put(out, a, b'l');
    five(out, b, n - 0x8000)
}

// A signed number, given as its four bytes are.
pub fn put_number(out: &mut [u8; 1024], at: usize, bits: u32) -> usize
    requires { (length out.old ≡ 1024) × (at ≤ 1025) }
    ensures { Wrote out.old out.new at (number (to_z w32 bits)) result }
{
    if bits < 0x8000_0000 {
        return digits(out, at, bits as usize);
    }
    let a = put(out, at, b'-');
    digits(out, a, 0x1_0000_0000 - bits as usize)
}
