// The lines of instructions.
ghost use Rattle.std.specs.Prelude.{◌≡◌, List, [], ◌∷◌, ℕ, ◌+◌, ◌≤◌, ◌<◌, length, get_or, drop};
ghost use Rattle.laws.specs.Lists.{each};
ghost use Rattle.rules.specs.Forms.{operands_at};
ghost use Rattle.rules.specs.Output.{operand_bytes};
ghost use Rattle.rules.specs.Programs.{Operand as Argument, instr};
ghost use Rattle.text.specs.Fits.{OperandsFit};
ghost use Rattle.text.specs.Text.{line_text};
ghost use Rattle.wording.specs.Writing.{Registered, Argued, Arguing, Written};

use crate::words::put_mnemonic;
use instruction::tables::operand_kind;
use rules::Kind;
use terms::{Went, put, term};

// `@R` and a digit.
fn register(s: &[u8], out: &mut [u8; 1024], at: usize) -> Went
    requires { (length out.old ≡ 1024) × (at ≤ 1025) }
    ensures { Registered s.now out.old out.new at result.taken result.to }
{
    if s.is_empty() || s[0] > 3 {
        return Went { taken: 0, to: at };
    }
    let a = put(out, at, b'@');
    let b = put(out, a, b'R');
    let to = put(out, b, b'0' + s[0]);
    Went { taken: 1, to }
}

// An argument of a kind.
fn argument(s: &[u8], k: Kind, out: &mut [u8; 1024], at: usize) -> Went
    requires { (length out.old ≡ 1024) × (at ≤ 1025) }
    ensures { Argued k s.now out.old out.new at result.taken result.to }
{
    match k {
        Kind::Reg => register(s, out, at),
        Kind::I8 => {
            let a = put(out, at, b'#');
            term(s, out, a, false)
        }
        Kind::D9 | Kind::Bit | Kind::Rel8 | Kind::A12 | Kind::A16 | Kind::Rel16 => term(
            s, out, at, false,
        ),
    }
}

// The arguments of a form from the j-th on, `by` before the first of them and a comma before each other.
fn arguments(s: &[u8], form: u8, j: usize, out: &mut [u8; 1024], at: usize, by: u8) -> usize
    requires { (length out.old ≡ 1024) × (at ≤ 1025) }
    ensures { Arguing (drop j (operands_at form)) by s.now out.old out.new at result }
{
    if j > 2 {
        return at;
    }
    let Some(k) = operand_kind(form, j) else {
        return at;
    };
    let a = put(out, at, by);
    let x = argument(s, k, out, a);
    let n = x.taken;
    let b = x.to;
    arguments(&s[n..], form, j + 1, out, b, b',')
}

// The line of an instruction.
pub fn instruction_line(frame: &[u8], out: &mut [u8; 1024]) -> usize
    requires { (length out.old ≡ 1024) × (2 ≤ length frame.now) × (get_or frame.now 1 0 < 70) }
    ensures { Written 1 frame.now out.old out.new result }
{
    let form = frame[1];
    let a = put_mnemonic(out, form);
    arguments(&frame[2..], form, 0, out, a, b' ')
}
