// What an expression is worth, its names found beforehand: beside each byte at which a name begins `links` has the place of the statement
// that defines it. `values` has by place what its name stands for, and a number outside 32 bits where the statement is gone.
ghost use Rattle.rules.specs.declared.Unvalued.{Unvalued};
ghost use Rattle.std.specs.Prelude.{◌≡◌, ℕ, ◌≤◌, length, ℤ, Result};
ghost use Rattle.rules.specs.Expressions.{Expr, read_expr, got, eval_tree};
ghost use Rattle.expression.specs.Evaluating.{no_value, number_at};
ghost use Rattle.expression.specs.Linked.{stands_at, link_at, Linked, Evaluated};

use crate::Valued;
use crate::fields::four;
use crate::reading::tag_of;
use crate::values::{fit, with_one, with_two};
use rules::{Tag, Unvalued};

// Where bytes are lacking, or are no expression.
fn none() -> Valued
    ensures { result ≡ no_value }
{
    Valued {
        value: Err(Unvalued::Nothing),
        taken: 0,
    }
}

fn number(s: &[u8]) -> Valued
    ensures { result ≡ number_at s.now }
{
    if s.len() < 5 {
        return none();
    }
    Valued {
        value: Ok(four(s[1], s[2], s[3], s[4])),
        taken: 5,
    }
}

// What the name that a place defines stands for: nothing from the limit on, and nothing where the statement is gone.
fn stands_for(values: &[i64; 1024], limit: usize, place: u16) -> Result<i32, Unvalued>
    requires { limit ≤ 1024 }
    ensures { result ≡ stands_at values.now limit place }
{
    let i = usize::from(place);
    if limit <= i {
        return Err(Unvalued::Unknown);
    }
    fit(values[i]).map_err(|_| Unvalued::Unknown)
}

fn linked(s: &[u8], links: &[u16], values: &[i64; 1024], limit: usize) -> Valued
    requires { (limit ≤ 1024) × (length s.now ≤ length links.now) }
    ensures { result ≡ link_at values.now limit links.now s.now }
{
    if s.len() < 3 {
        return none();
    }
    Valued {
        value: stands_for(values, limit, links[0]),
        taken: 3,
    }
}

// The worth of the expression that s begins with: where reading gives a tree, the tree's.
fn eval_linked(s: &[u8], links: &[u16], values: &[i64; 1024], limit: usize) -> Valued
    requires { (limit ≤ 1024) × (length s.now ≤ length links.now) }
    ensures { Evaluated s.now links.now values.now limit result.value result.taken }
{
    if s.len() < 1 {
        return none();
    }
    match tag_of(s[0]) {
        Tag::Number => number(s),
        Tag::Name => linked(s, links, values, limit),
        Tag::One(o) => {
            let a = eval_linked(&s[1..], &links[1..], values, limit);
            let x = a.value;
            let value = with_one(o, x);
            let taken = 1 + a.taken;
            Valued { value, taken }
        }
        Tag::Two(o) => {
            let a = eval_linked(&s[1..], &links[1..], values, limit);
            let k = 1 + a.taken;
            let b = eval_linked(&s[k..], &links[k..], values, limit);
            let x = a.value;
            let y = b.value;
            let value = with_two(o, x, y);
            let taken = k + b.taken;
            Valued { value, taken }
        }
        Tag::Bad => none(),
    }
}

// What the expression that s begins with is worth, by the places below `limit`.
pub fn linked_worth(
    s: &[u8],
    links: &[u16],
    values: &[i64; 1024],
    limit: usize,
) -> Result<i32, Unvalued>
    requires { (limit ≤ 1024) × (length s.now ≤ length links.now) }
    ensures { (env : ℕ → Result ℤ Unvalued) → Linked env s.now links.now values.now limit
        → (e : Expr) (n : ℕ) → read_expr s.now ≡ got e n → result ≡ eval_tree env e }
{
    eval_linked(s, links, values, limit).value
}
