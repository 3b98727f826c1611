// The frame of one statement that is read back, laid in a room of seventeen bytes.
ghost use Rattle.std.specs.Prelude.{◌≡◌, true, ◌+◌, ◌*◌, ◌<◌, ◌≤◌, length, get_or, take};
ghost use Rattle.rules.specs.Forms.{operands_at};
ghost use Rattle.rules.specs.Expressions.{bytes_of};
ghost use Rattle.rules.specs.Output.{frame_of};
ghost use Rattle.digits.specs.Digits.{laid};
ghost use Rattle.decoding.specs.Operands.{plain};
ghost use Rattle.readback.specs.ReadBack.{data_of};
ghost use Rattle.readback.specs.Frames.{is_register, value_bytes, Argument, Instruction, FrameOf};

use decoding::opcodes::decode;
use decoding::operands::{held, read_as};
use instruction::tables::{operand_count, operand_kind};
use rules::{Address, Kind};

// How many bytes of the image a statement takes, and how many its frame has.
#[derive(Clone, Copy)]
pub struct Step(pub usize, pub usize);

// The byte at k; bytes that an instruction does not have count for nothing.
fn byte_at(s: &[u8], k: usize) -> u8
    ensures { result ≡ get_or s.now k 0 }
{
    s.get(k).copied().unwrap_or(0)
}

// A plain number: 00 and its four bytes, high byte first.
fn put_number(frame: &mut [u8], at: usize, v: usize)
    requires { (at + 5 ≤ length frame.old) × (v < 65536) }
    ensures { frame.new ≡ laid frame.old at (bytes_of (plain v)) }
{
    let bytes = [0, 0, 0, (v / 256) as u8, (v % 256) as u8];
    frame[at..at + 5].copy_from_slice(&bytes);
}

// A register is one byte of a frame; no other argument is.
fn is_register(kind: Kind) -> bool
    ensures { result ≡ is_register kind }
{
    matches!(kind, Kind::Reg)
}

// An argument: a register is one byte, any other a plain number.
fn put_value(frame: &mut [u8], at: usize, kind: Kind, v: usize) -> usize
    requires { (at + 5 ≤ length frame.old) × (v < 65536) × (is_register kind ≡ true → v < 256) }
    ensures { (frame.new ≡ laid frame.old at (value_bytes kind v)) × (result ≡ at + length (value_bytes kind v)) }
{
    if is_register(kind) {
        frame[at] = v as u8;
        return at + 1;
    }
    put_number(frame, at, v);
    at + 5
}

// Bytes as data: 06, how many, and each as a plain number.
fn put_data(s: &[u8], frame: &mut [u8]) -> usize
    requires { (length s.now ≤ 3) × (17 ≤ length frame.old) }
    ensures { (take result frame.new ≡ frame_of (data_of s.now)) × (result ≤ 17) }
{
    frame[0] = 6;
    frame[1] = s.len() as u8;
    for (k, b) in s.iter().enumerate() {
        put_number(frame, 2 + 5 * k, usize::from(*b));
    }
    2 + 5 * s.len()
}

// Argument j of the instruction of this form and these bytes, with n the address after it: where it ends, or none where its target falls
// outside 0..65,535.
fn put_argument(
    s: &[u8],
    form: u8,
    j: usize,
    n: Address,
    frame: &mut [u8],
    at: usize,
) -> Option<usize>
    requires { (form < 70) × (j < length (operands_at form)) × (n.0 ≤ 65536) × (at + 5 ≤ length frame.old) }
    ensures { Argument form s.now n.0 j frame.old at result frame.new }
{
    let kind = operand_kind(form, j)?;
    let v = held(form, kind, byte_at(s, 0), byte_at(s, 1), byte_at(s, 2));
    let number = read_as(kind, n.0, v)?;
    Some(put_value(frame, at, kind, number))
}

// An instruction: its kind, its form, and its arguments; n is the address after it. Where the frame ends, or none where a target falls
// outside.
fn put_instruction(s: &[u8], form: u8, n: Address, frame: &mut [u8]) -> Option<usize>
    requires { (form < 70) × (n.0 ≤ 65536) × (17 ≤ length frame.old) }
    ensures { Instruction form s.now n.0 result frame.new }
{
    frame[0] = 1;
    frame[1] = form;
    let mut at = 2;
    for j in 0..operand_count(form) {
        at = put_argument(s, form, j, n, frame, at)?;
    }
    Some(at)
}

// The statement that the bytes s begin with, which lie at q.
#[tactic(auto, using(instruction::proofs::Numbers::size_bound))]
pub fn frame_at(s: &[u8], q: Address, frame: &mut [u8]) -> Step
    requires { (1 ≤ length s.now) × (q.0 + length s.now ≤ 65536) × (17 ≤ length frame.old) }
    ensures { FrameOf q.0 s.now result frame.new }
{
    let opcode = decode(s[0]);
    let form = opcode.0;
    let size = opcode.1;
    let n = s.len();
    if n < size {
        return Step(n, put_data(s, frame));
    }
    match put_instruction(s, form, Address(q.0 + size), frame) {
        Some(end) => Step(size, end),
        None => Step(1, put_data(&s[..1], frame)),
    }
}
