// What the bytes of an instruction hold of its arguments. b0, b1, b2 are its bytes; those that it does not have count for nothing.
ghost use Rattle.std.specs.Prelude.{◌≡◌, [], ◌∷◌, ◌+◌, ◌*◌, ◌^◌, ◌≤◌, ◌<◌, pos};
ghost use Rattle.decoding.specs.Operands.{width, reads, near as near_to};
ghost use Rattle.decoding.specs.Numbers.{number_as};
ghost use Rattle.decoding.specs.Runs.{has_bit, runs_of, number_in};

use instruction::tables;
use rules::Kind;

const MOV_D9: u8 = 0x23;

fn has_bit(form: u8) -> bool
    ensures { result ≡ has_bit form }
{
    matches!(form, 0x30..=0x32 | 0x40..=0x42)
}

// The upper byte and the lower.
fn join(high: u8, low: u8) -> u16
    ensures { result ≡ high * 256 + low }
{
    u16::from_be_bytes([high, low])
}

// What form holds of an argument of this kind.
pub fn held(form: u8, kind: Kind, b0: u8, b1: u8, b2: u8) -> u16
    ensures { result ≡ number_in (b0 ∷ b1 ∷ b2 ∷ []) (runs_of form kind) }
{
    match kind {
        Kind::Reg => u16::from(b0 % 4),
        Kind::I8 => u16::from(if form == MOV_D9 { b2 } else { b1 }),
        Kind::D9 => {
            if has_bit(form) {
                join(b0 / 16 % 2, b1)
            } else {
                join(b0 % 2, b1)
            }
        }
        Kind::Bit => u16::from(b0 % 8),
        Kind::Rel8 => u16::from(if tables::size(form) == 3 { b2 } else { b1 }),
        Kind::A12 => join(b0 / 16 % 2 * 8 + b0 % 8, b1),
        Kind::A16 => join(b1, b2),
        Kind::Rel16 => join(b2, b1),
    }
}

// A relative target outside 0..65,535 is none.
fn inside(a: usize) -> Option<usize>
    ensures { result ≡ number_as (pos a) }
{
    (a < 65536).then_some(a)
}

// Eight bits, from the address after the instruction.
fn near(n: usize, v: usize) -> Option<usize>
    requires { (n ≤ 65536) × (v < 256) }
    ensures { result ≡ number_as (near_to n v) }
{
    if v < 128 {
        inside(n + v)
    } else {
        (n + v).checked_sub(256).and_then(inside)
    }
}

// The number that is written for what is held, v, of an argument of this kind, with n the address after the instruction; none outside
// 0..65,535.
pub fn read_as(kind: Kind, n: usize, v: u16) -> Option<usize>
    requires { (n ≤ 65536) × (v < 2 ^ width kind) }
    ensures { result ≡ number_as (reads n kind v) }
{
    let w = usize::from(v);
    match kind {
        Kind::Reg | Kind::I8 | Kind::D9 | Kind::Bit | Kind::A16 => inside(w),
        Kind::Rel8 => near(n, w),
        Kind::A12 => inside(n % 65536 / 4096 * 4096 + w),
        Kind::Rel16 => inside((w + n + 65535) % 65536),
    }
}
