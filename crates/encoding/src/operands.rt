// The range of each operand and of each item of data, and what is written for it. Refusals 8 to 11 keep the argument's place and the
// number at fault.
ghost use Rattle.std.specs.Prelude.{◌≡◌, ◌≤◌, ◌^◌, pos, ◌-ℤ◌};
ghost use Rattle.rules.specs.Values.{below, nat, mod256, signed_byte};
ghost use Rattle.rules.specs.Encoding.{page, field};
ghost use Rattle.encoding.specs.Operands.{field_as, ranged, held, number_as};

use rules::{Address, Kind, Place, Refusal};

// 0 to 2^bits - 1: a negative number has ones in front, so one shift tells it too.
fn unsigned(v: i32, bits: u32) -> bool
    requires { bits ≤ 16 }
    ensures { result ≡ below (2 ^ bits) v }
{
    v >> bits == 0
}

// A number of the width, where v is one.
fn number(v: i32, bits: u32) -> Option<u16>
    requires { bits ≤ 16 }
    ensures { result ≡ number_as (2 ^ bits) v }
{
    if unsigned(v, bits) {
        Some(v as u16)
    } else {
        None
    }
}

// A number of the width, or refusal 8.
fn in_range(i: Place, j: usize, bits: u32, v: i32) -> Result<u16, Refusal>
    requires { bits ≤ 16 }
    ensures { result ≡ field_as (ranged i.0 j (2 ^ bits) v) }
{
    number(v, bits).ok_or(Refusal::Range(i, j, v))
}

pub fn byte_item(i: Place, j: usize, v: i32) -> Result<u16, Refusal>
    ensures { result ≡ field_as (ranged i.0 j 256 v) }
{
    in_range(i, j, 8, v)
}

pub fn word_item(i: Place, j: usize, v: i32) -> Result<u16, Refusal>
    ensures { result ≡ field_as (ranged i.0 j 65536 v) }
{
    in_range(i, j, 16, v)
}

// A register was judged when it was read, so any other number may be 0.
fn register(v: i32) -> u16
    ensures { result ≡ nat (held Kind.Reg v) }
{
    number(v, 16).unwrap_or(0)
}

// From the address after the instruction to the target.
fn distance(n: Address, a: u16) -> i32
    requires { n.0 ≤ 65536 }
    ensures { result ≡ pos a -ℤ pos n.0 }
{
    i32::from(a) - n.0 as i32
}

fn signed_byte(d: i32) -> bool
    ensures { result ≡ signed_byte d }
{
    matches!(d, -128..=127)
}

fn low_byte(d: i32) -> u16
    ensures { result ≡ mod256 d }
{
    (d & 255) as u16
}

fn rel8(i: Place, j: usize, n: Address, v: i32) -> Result<u16, Refusal>
    requires { n.0 ≤ 65536 }
    ensures { result ≡ field_as (field i.0 j n.0 Kind.Rel8 v) }
{
    let a = number(v, 16).ok_or(Refusal::Outside(i, j, v))?;
    let d = distance(n, a);
    if signed_byte(d) {
        Ok(low_byte(d))
    } else {
        Err(Refusal::Far(i, j, d))
    }
}

// Bits 12 to 15 of an address; at 65,536 they are 0.
fn page_of(a: usize) -> usize
    ensures { result ≡ page a }
{
    a % 65536 / 4096
}

fn page_address(i: Place, j: usize, n: Address, v: i32) -> Result<u16, Refusal>
    ensures { result ≡ field_as (field i.0 j n.0 Kind.A12 v) }
{
    let a = number(v, 16).ok_or(Refusal::Range(i, j, v))?;
    if page_of(usize::from(a)) == page_of(n.0) {
        Ok(a)
    } else {
        Err(Refusal::Page(i, j, v))
    }
}

fn rel16(i: Place, j: usize, n: Address, v: i32) -> Result<u16, Refusal>
    requires { n.0 ≤ 65536 }
    ensures { result ≡ field_as (field i.0 j n.0 Kind.Rel16 v) }
{
    let a = number(v, 16).ok_or(Refusal::Outside(i, j, v))?;
    Ok(((usize::from(a) + 65537 - n.0) % 65536) as u16)
}

// What the instruction at place i, with n the address after it, writes for its argument j of value v, or the refusal of that value.
pub fn field_of(i: Place, j: usize, n: Address, kind: Kind, v: i32) -> Result<u16, Refusal>
    requires { n.0 ≤ 65536 }
    ensures { result ≡ field_as (field i.0 j n.0 kind (held kind v)) }
{
    match kind {
        Kind::Reg => Ok(register(v)),
        Kind::I8 => in_range(i, j, 8, v),
        Kind::D9 => in_range(i, j, 9, v),
        Kind::Bit => in_range(i, j, 3, v),
        Kind::Rel8 => rel8(i, j, n, v),
        Kind::A12 => page_address(i, j, n, v),
        Kind::A16 => in_range(i, j, 16, v),
        Kind::Rel16 => rel16(i, j, n, v),
    }
}
