// `.byte` and `.word`: 1 to 16 expressions.
ghost use Rattle.std.specs.Prelude.{◌≡◌, List, [], ℕ, ◌+◌, ◌≤◌, ◌<◌, length, drop};
ghost use Rattle.rules.specs.Expressions.{Expr};
ghost use Rattle.rules.specs.Programs.{Stmt, bytes, words};
ghost use Rattle.plans.specs.Lines.{items_plan};
ghost use Rattle.laying.specs.Speaking.{Spoken, Listed, ItemsEnd};

use laying::{Told, put, term};
use leaves::lexing::look;

// The count of the items into their frame.
fn count(out: &mut [u8; 120], items: u8, to: usize) -> Told
    requires { length out.old ≡ 120 }
    ensures { ItemsEnd out.old out.new items to result }
{
    out[1] = items;
    Ok(to)
}

// The items of a frame of a kind, the first at k.
fn items(s: &[u8], k: usize, kind: u8, out: &mut [u8; 120]) -> Told
    requires { (k ≤ length s.now) × (length out.old ≡ 120) }
    ensures { (make : List Expr → Stmt) → Listed make kind s.now k out.new result }
{
    let a = put(out, 0, kind);
    let mut at = put(out, a, 0);
    let mut i = k;
    for n in 1..17 {
        let (e, to) = term(s, i, out, at)?;
        if e >= s.len() {
            return count(out, n, to);
        }
        if look(&s[e..]) != b',' {
            return Err(e);
        }
        if n == 16 {
            return Err(e);
        }
        i = e + 1;
        at = to;
    }
    Err(k)
}

pub fn bytes_line(s: &[u8], k: usize, out: &mut [u8; 120]) -> Told
    requires { (k ≤ length s.now) × (length out.old ≡ 120) }
    ensures { Spoken (items_plan bytes 15 []) s.now k out.new result }
{
    items(s, k, 6, out)
}

pub fn words_line(s: &[u8], k: usize, out: &mut [u8; 120]) -> Told
    requires { (k ≤ length s.now) × (length out.old ≡ 120) }
    ensures { Spoken (items_plan words 15 []) s.now k out.new result }
{
    items(s, k, 7, out)
}
