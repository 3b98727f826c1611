// The bytes of an instruction. Each arm of encode names the shape of its bit pattern and the pattern's fixed bits as src/instruction.rs
// writes them; the letters a, b, c are the arguments' values.
ghost use Rattle.std.specs.Prelude.{◌≡◌, [], ◌∷◌, ◌++◌};
ghost use Rattle.laws.specs.Bits.{bits, byte_of};
ghost use Rattle.rules.specs.Instructions.{code_of, enc_of};

use rules::{Code, Instr};

pub fn encode(i: Instr, a: u16, b: u16, c: u16) -> Code
    ensures { result ≡ enc_of i a b c }
{
    match i {
        Instr::Add_i8(_) => low1(0b10000001, a),
        Instr::Add_d9(_) => d9(0b1000001, a),
        Instr::Add_Ri(_) => ri(0b100001, a),
        Instr::Addc_i8(_) => low1(0b10010001, a),
        Instr::Addc_d9(_) => d9(0b1001001, a),
        Instr::Addc_Ri(_) => ri(0b100101, a),
        Instr::Sub_i8(_) => low1(0b10100001, a),
        Instr::Sub_d9(_) => d9(0b1010001, a),
        Instr::Sub_Ri(_) => ri(0b101001, a),
        Instr::Subc_i8(_) => low1(0b10110001, a),
        Instr::Subc_d9(_) => d9(0b1011001, a),
        Instr::Subc_Ri(_) => ri(0b101101, a),
        Instr::Inc_d9(_) => d9(0b0110001, a),
        Instr::Inc_Ri(_) => ri(0b011001, a),
        Instr::Dec_d9(_) => d9(0b0111001, a),
        Instr::Dec_Ri(_) => ri(0b011101, a),
        Instr::Mul => one(0b00110000),
        Instr::Div => one(0b01000000),
        Instr::And_i8(_) => low1(0b11100001, a),
        Instr::And_d9(_) => d9(0b1110001, a),
        Instr::And_Ri(_) => ri(0b111001, a),
        Instr::Or_i8(_) => low1(0b11010001, a),
        Instr::Or_d9(_) => d9(0b1101001, a),
        Instr::Or_Ri(_) => ri(0b110101, a),
        Instr::Xor_i8(_) => low1(0b11110001, a),
        Instr::Xor_d9(_) => d9(0b1111001, a),
        Instr::Xor_Ri(_) => ri(0b111101, a),
        Instr::Rol => one(0b11100000),
        Instr::Rolc => one(0b11110000),
        Instr::Ror => one(0b11000000),
        Instr::Rorc => one(0b11010000),
        Instr::Ld_d9(_) => d9(0b0000001, a),
        Instr::Ld_Ri(_) => ri(0b000001, a),
        Instr::St_d9(_) => d9(0b0001001, a),
        Instr::St_Ri(_) => ri(0b000101, a),
        Instr::Mov_d9(_, _) => d9_low(0b0010001, b, a),
        Instr::Mov_Rj(_, _) => ri_low(0b001001, b, a),
        Instr::Ldc => one(0b11000001),
        Instr::Push(_) => d9(0b0110000, a),
        Instr::Pop(_) => d9(0b0111000, a),
        Instr::Xch_d9(_) => d9(0b1100001, a),
        Instr::Xch_Ri(_) => ri(0b110001, a),
        Instr::Jmp(_) => a12(0b001, a),
        Instr::Jmpf(_) => high_low(0b00100001, a),
        Instr::Br(_) => low1(0b00000001, a),
        Instr::Brf(_) => low_high(0b00010001, a),
        Instr::Bz(_) => low1(0b10000000, a),
        Instr::Bnz(_) => low1(0b10010000, a),
        Instr::Bp(_, _, _) => bit_low(0b011, a, b, c),
        Instr::Bpc(_, _, _) => bit_low(0b010, a, b, c),
        Instr::Bn(_, _, _) => bit_low(0b100, a, b, c),
        Instr::Dbnz_d9(_, _) => d9_low(0b0101001, a, b),
        Instr::Dbnz_Ri(_, _) => ri_low(0b010101, a, b),
        Instr::Be_i8(_, _) => low2(0b00110001, a, b),
        Instr::Be_d9(_, _) => d9_low(0b0011001, a, b),
        Instr::Be_Rj(_, _, _) => ri_low2(0b001101, a, b, c),
        Instr::Bne_i8(_, _) => low2(0b01000001, a, b),
        Instr::Bne_d9(_, _) => d9_low(0b0100001, a, b),
        Instr::Bne_Rj(_, _, _) => ri_low2(0b010001, a, b, c),
        Instr::Call(_) => a12(0b000, a),
        Instr::Callf(_) => high_low(0b00100000, a),
        Instr::Callr(_) => low_high(0b00010000, a),
        Instr::Ret => one(0b10100000),
        Instr::Reti => one(0b10110000),
        Instr::Clr1(_, _) => bit(0b110, a, b),
        Instr::Set1(_, _) => bit(0b111, a, b),
        Instr::Not1(_, _) => bit(0b101, a, b),
        Instr::Nop => one(0b00000000),
        Instr::Ldf => one(0b01010000),
        Instr::Stf => one(0b01010001),
    }
}

// ---- bytes: the bits of a form that stand in front, and those of an argument

// Bits 7 to 0.
fn low(x: u16) -> u8
    ensures { result ≡ byte_of (bits x 0 8) }
{
    (x % 256) as u8
}

// Bits 15 to 8.
fn high(x: u16) -> u8
    ensures { result ≡ byte_of (bits x 8 8) }
{
    (x / 256) as u8
}

// Seven bits of the form, then bit 8.
fn lead7(base: u8, x: u16) -> u8
    ensures { result ≡ byte_of (bits base 0 7 ++ bits x 8 1) }
{
    base % 128 * 2 + (x / 256 % 2) as u8
}

// Six bits of the form, then a register.
fn lead6(base: u8, x: u16) -> u8
    ensures { result ≡ byte_of (bits base 0 6 ++ bits x 0 2) }
{
    base % 64 * 4 + (x % 4) as u8
}

// Three bits of the form, bit 8 of an address, a one, then a bit's number.
fn lead_bit(base: u8, x: u16, y: u16) -> u8
    ensures { result ≡ byte_of (bits base 0 3 ++ (bits x 8 1 ++ (1 ∷ bits y 0 3))) }
{
    base % 8 * 32 + (x / 256 % 2) as u8 * 16 + 8 + (y % 8) as u8
}

// Three bits of the form, bit 11 of an address, a one, then its bits 10 to 8.
fn lead_a12(base: u8, x: u16) -> u8
    ensures { result ≡ byte_of (bits base 0 3 ++ (bits x 11 1 ++ (1 ∷ bits x 8 3))) }
{
    base % 8 * 32 + (x / 2048 % 2) as u8 * 16 + 8 + (x / 256 % 8) as u8
}

// Eight bits of the form.
fn fixed(base: u8) -> u8
    ensures { result ≡ byte_of (bits base 0 8) }
{
    base
}

// ---- a code of one byte, of two and of three

fn one_byte(b0: u8) -> Code
    ensures { result ≡ record { len = 1; b0 = b0; b1 = 0; b2 = 0 } }
{
    Code {
        len: 1,
        b0,
        b1: 0,
        b2: 0,
    }
}

fn two_bytes(b0: u8, b1: u8) -> Code
    ensures { result ≡ record { len = 2; b0 = b0; b1 = b1; b2 = 0 } }
{
    Code {
        len: 2,
        b1,
        ..one_byte(b0)
    }
}

fn three_bytes(b0: u8, b1: u8, b2: u8) -> Code
    ensures { result ≡ record { len = 3; b0 = b0; b1 = b1; b2 = b2 } }
{
    Code { len: 3, b0, b1, b2 }
}

// ---- the shapes of an instruction, first byte first: each is what a bit pattern says, but for its fixed bits

fn one(base: u8) -> Code
    ensures { result ≡ code_of ((bits base 0 8) ∷ []) }
{
    one_byte(fixed(base))
}

fn low1(base: u8, x: u16) -> Code
    ensures { result ≡ code_of ((bits base 0 8) ∷ (bits x 0 8) ∷ []) }
{
    two_bytes(fixed(base), low(x))
}

fn low2(base: u8, x: u16, y: u16) -> Code
    ensures { result ≡ code_of ((bits base 0 8) ∷ (bits x 0 8) ∷ (bits y 0 8) ∷ []) }
{
    three_bytes(fixed(base), low(x), low(y))
}

fn high_low(base: u8, x: u16) -> Code
    ensures { result ≡ code_of ((bits base 0 8) ∷ (bits x 8 8) ∷ (bits x 0 8) ∷ []) }
{
    three_bytes(fixed(base), high(x), low(x))
}

fn low_high(base: u8, x: u16) -> Code
    ensures { result ≡ code_of ((bits base 0 8) ∷ (bits x 0 8) ∷ (bits x 8 8) ∷ []) }
{
    three_bytes(fixed(base), low(x), high(x))
}

fn d9(base: u8, x: u16) -> Code
    ensures { result ≡ code_of ((bits base 0 7 ++ bits x 8 1) ∷ (bits x 0 8) ∷ []) }
{
    two_bytes(lead7(base, x), low(x))
}

fn d9_low(base: u8, x: u16, y: u16) -> Code
    ensures { result ≡ code_of ((bits base 0 7 ++ bits x 8 1) ∷ (bits x 0 8) ∷ (bits y 0 8) ∷ []) }
{
    three_bytes(lead7(base, x), low(x), low(y))
}

fn ri(base: u8, x: u16) -> Code
    ensures { result ≡ code_of ((bits base 0 6 ++ bits x 0 2) ∷ []) }
{
    one_byte(lead6(base, x))
}

fn ri_low(base: u8, x: u16, y: u16) -> Code
    ensures { result ≡ code_of ((bits base 0 6 ++ bits x 0 2) ∷ (bits y 0 8) ∷ []) }
{
    two_bytes(lead6(base, x), low(y))
}

fn ri_low2(base: u8, x: u16, y: u16, z: u16) -> Code
    ensures { result ≡ code_of ((bits base 0 6 ++ bits x 0 2) ∷ (bits y 0 8) ∷ (bits z 0 8) ∷ []) }
{
    three_bytes(lead6(base, x), low(y), low(z))
}

fn a12(base: u8, x: u16) -> Code
    ensures { result ≡ code_of ((bits base 0 3 ++ (bits x 11 1 ++ (1 ∷ bits x 8 3))) ∷ (bits x 0 8) ∷ []) }
{
    two_bytes(lead_a12(base, x), low(x))
}

fn bit(base: u8, x: u16, y: u16) -> Code
    ensures { result ≡ code_of ((bits base 0 3 ++ (bits x 8 1 ++ (1 ∷ bits y 0 3))) ∷ (bits x 0 8) ∷ []) }
{
    two_bytes(lead_bit(base, x, y), low(x))
}

fn bit_low(base: u8, x: u16, y: u16, z: u16) -> Code
    ensures { result ≡ code_of ((bits base 0 3 ++ (bits x 8 1 ++ (1 ∷ bits y 0 3))) ∷ (bits x 0 8) ∷ (bits z 0 8) ∷ []) }
{
    three_bytes(lead_bit(base, x, y), low(x), low(z))
}
