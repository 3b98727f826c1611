// "A label is its name and a colon, a variable its name, `=` and the expression."
ghost use Rattle.std.specs.Prelude.{◌≡◌, ◌∷◌, ◌||◌, ℕ, ◌+◌, ◌≤◌, ◌<◌, eqb, length, drop};
ghost use Rattle.std.proofs.Math.Option.{none};
ghost use Rattle.rules.specs.Expressions.{pair};
ghost use Rattle.rules.specs.Programs.{label, variable};
ghost use Rattle.plans.specs.Plans.{done, fork, expression};
ghost use Rattle.plans.specs.Lines.{after_global, global_plan, local_plan};
ghost use Rattle.laying.specs.Laying.{Stands};
ghost use Rattle.laying.specs.Speaking.{Spoken};

use crate::ends::{ended, put_head};
use laying::{Told, term};
use leaves::lexing::{after, fixed, look};

// A variable's expression, which ends the line.
fn bound(s: &[u8], k: usize, out: &mut [u8; 120], at: usize) -> Told
    requires { (k ≤ length s.now) × (length out.old ≡ 120) × (at ≤ 121) }
    ensures { (n : ℕ) → Stands out.old at (3 ∷ pair n) 0
        → Spoken (expression (λ e. done (variable n e))) s.now k out.new result }
{
    let (n, to) = term(s, k, out, at)?;
    ended(s, n, to)
}

// What follows a global name.
fn after_global(s: &[u8], k: usize, name: usize, out: &mut [u8; 120]) -> Told
    requires { (k ≤ length s.now) × (length out.old ≡ 120) × (name ≤ 32767) }
    ensures { Spoken (fork none (λ c. eqb c 58 || eqb c 61) (after_global name)) s.now k out.new result }
{
    let c = look(&s[k..]);
    if c == b':' {
        let at = put_head(out, 2, name);
        return ended(s, k + 1, at);
    }
    if c == b'=' {
        let at = put_head(out, 3, name);
        return bound(s, k + 1, out, at);
    }
    Err(k)
}

// What follows a local name.
fn after_local(s: &[u8], k: usize, name: usize, out: &mut [u8; 120]) -> Told
    requires { (k ≤ length s.now) × (length out.old ≡ 120) × (name ≤ 32767) }
    ensures { Spoken (fork none (λ c. eqb c 58) (λ c. done (label (0x8000 + name)))) s.now k out.new result }
{
    if look(&s[k..]) == b':' {
        let at = put_head(out, 2, 0x8000 + name);
        return ended(s, k + 1, at);
    }
    Err(k)
}

pub fn global_line(s: &[u8], k: usize, out: &mut [u8; 120]) -> Told
    requires { (k ≤ length s.now) × (length out.old ≡ 120) }
    ensures { Spoken global_plan s.now k out.new result }
{
    let (n, v) = after(k, fixed(&s[k..]))?;
    after_global(s, n, v, out)
}

pub fn local_line(s: &[u8], k: usize, out: &mut [u8; 120]) -> Told
    requires { (k ≤ length s.now) × (length out.old ≡ 120) }
    ensures { Spoken local_plan s.now k out.new result }
{
    let (n, v) = after(k, fixed(&s[k..]))?;
    after_local(s, n, v, out)
}
