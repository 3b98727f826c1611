// C-19: the arguments of an instruction: which of its mnemonic's forms a line is of is told by what stands before each argument, `#`,
// `@` or nothing.
#![tactic(auto)]

ghost use Rattle.std.specs.Prelude.{◌≡◌, [], ℕ, ◌+◌, ◌≤◌, ◌<◌, length, drop};
ghost use Rattle.plans.specs.Families.{args_plan, family_of};
ghost use Rattle.laying.specs.Laying.{Termed};
ghost use Rattle.laying.specs.Speaking.{Spoken};
ghost use Rattle.arguing.specs.Answers.{Argued, Registered, FormEnd, Valued};

use instruction::tables::operand_count;
use laying::{Told, put, term};
use leaves::Found;
use leaves::lexing::look;
use marks::{mark_of, narrowed};

// An argument: the first form that it leaves, where it ends, where its bytes end; or the byte that no good line could have there.
type Arg = Result<(u8, usize, usize), usize>;

// An expression as an argument.
fn valued(form: u8, r: Found) -> Arg
    ensures { result ≡ Valued form r }
{
    r.map(|(n, to)| (form, n, to))
}

// `R` and a digit, at k.
fn register(s: &[u8], k: usize, form: u8, out: &mut [u8; 120], at: usize) -> Arg
    requires { (k ≤ length s.now) × (length out.old ≡ 120) × (at ≤ 121) }
    ensures { Registered s.now k form out.old out.new at result }
{
    if look(&s[k..]) != b'R' {
        return Err(k);
    }
    let i = k + 1;
    let d = look(&s[i..]);
    if d < b'0' || d > b'3' {
        return Err(i);
    }
    let to = put(out, at, d - b'0');
    Ok((form, i + 1, to))
}

// Argument j at k.
fn argument(s: &[u8], k: usize, form: u8, j: usize, out: &mut [u8; 120], at: usize) -> Arg
    requires { (k ≤ length s.now) × (form < 70) × (j < 3) × (length out.old ≡ 120) × (at ≤ 121) }
    ensures { Argued s.now k form j out.old out.new at result }
{
    let mark = mark_of(look(&s[k..]));
    let f = narrowed(form, j, mark);
    if f > 69 {
        return Err(k);
    }
    if mark == 1 {
        return register(s, k + 1, f, out, at);
    }
    if mark == 0 {
        return valued(f, term(s, k + 1, out, at));
    }
    valued(f, term(s, k, out, at))
}

// The line ends at k, and its form is known.
fn form_end(s: &[u8], k: usize, form: u8, out: &mut [u8; 120], to: usize) -> Told
    requires { length out.old ≡ 120 }
    ensures { FormEnd (length s.now) k form out.old out.new to result }
{
    if k < s.len() {
        return Err(k);
    }
    out[1] = form;
    Ok(to)
}

// The arguments of a form or of another of its mnemonic, the first at k.
pub fn arguments(s: &[u8], k: usize, form: u8, out: &mut [u8; 120]) -> Told
    requires { (k ≤ length s.now) × (form < 70) × (length out.old ≡ 120) }
    ensures { Spoken (args_plan 3 (family_of form) []) s.now k out.new result }
{
    let a = put(out, 0, 1);
    let mut at = put(out, a, 0);
    let mut i = k;
    let mut f = form;
    for j in 0..3 {
        let (g, n, to) = argument(s, i, f, j, out, at)?;
        if operand_count(g) == j + 1 {
            return form_end(s, n, g, out, to);
        }
        if look(&s[n..]) != b',' {
            return Err(n);
        }
        i = n + 1;
        f = g;
        at = to;
    }
    Err(k)
}
