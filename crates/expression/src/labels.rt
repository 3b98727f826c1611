// Names looked for among those of the places below a limit: `names` has a name at each place, 65,536 for none, and `contexts` its context.
// Where `names` has only those that move with the code, an expression that holds one holds a label, "directly or through variables".
ghost use Rattle.std.specs.Prelude.{◌≡◌, ℕ, ◌≤◌};
ghost use Rattle.rules.specs.Expressions.{Expr, read_expr, got, mentions};
ghost use Rattle.rules.specs.Names.{key_of};
ghost use Rattle.rules.specs.Judging.{is_seen};
ghost use Rattle.rules.specs.Rewriting.{holds_label};
ghost use Rattle.expression.specs.Environment.{is_here, keys_of};
ghost use Rattle.expression.specs.Naming.{seen_tally};
ghost use Rattle.expression.specs.Along.{Along};

use crate::Tally;
use crate::fields::pair;
use crate::naming::leaf;
use crate::reading::tag_of;
use rules::Tag;

// A statement of context k that defines n defines what `name` means in `context`: a local name within its context only.
pub fn defines(n: u32, k: u16, name: u16, context: u16) -> bool
    ensures { result ≡ is_here n k name context }
{
    // By branches, and the name first: by `&&` and `||` the loops over all names look at each place's context too, and a run has up to 2.7
    // times the instructions.
    if n != u32::from(name) {
        false
    } else if name < 0x8000 {
        true
    } else {
        k == context
    }
}

// Whether a place below the limit has what `name` means in `context`.
pub fn is_seen(
    names: &[u32; 1024],
    contexts: &[u16; 1024],
    limit: usize,
    context: u16,
    name: u16,
) -> bool
    requires { limit ≤ 1024 }
    ensures { result ≡ is_seen (keys_of names.now contexts.now limit) (key_of context name) }
{
    for i in (0..limit).rev() {
        if defines(names[i], contexts[i], name, context) {
            return true;
        }
    }
    false
}

fn named(s: &[u8], names: &[u32; 1024], contexts: &[u16; 1024], limit: usize, context: u16) -> Tally
    requires { limit ≤ 1024 }
    ensures { result ≡ seen_tally (keys_of names.now contexts.now limit) context s.now }
{
    if s.len() < 3 {
        return Tally { found: 0, taken: 0 };
    }
    let seen = is_seen(names, contexts, limit, context, pair(s[1], s[2]));
    leaf(s, 3, usize::from(seen))
}

// Counts the names that are seen in the expression that s begins with. It walks as `naming::tally` does, but asks tables of a name,
// where that one takes a second slice along: one walk for both would be passed a closure and an offset, and be longer.
fn count_seen(
    s: &[u8],
    names: &[u32; 1024],
    contexts: &[u16; 1024],
    limit: usize,
    context: u16,
) -> Tally
    requires { limit ≤ 1024 }
    ensures few { result.found ≤ result.taken }
    ensures along { Along (mentions (λ m. is_seen (keys_of names.now contexts.now limit) (key_of context m)))
        s.now result.found result.taken }
{
    if s.len() < 1 {
        return Tally { found: 0, taken: 0 };
    }
    match tag_of(s[0]) {
        Tag::Number => leaf(s, 5, 0),
        Tag::Name => named(s, names, contexts, limit, context),
        Tag::One(_) => {
            let a = count_seen(&s[1..], names, contexts, limit, context);
            let found = a.found;
            let taken = 1 + a.taken;
            Tally { found, taken }
        }
        Tag::Two(_) => {
            let a = count_seen(&s[1..], names, contexts, limit, context);
            let k = 1 + a.taken;
            let b = count_seen(&s[k..], names, contexts, limit, context);
            let found = a.found + b.found;
            let taken = k + b.taken;
            Tally { found, taken }
        }
        Tag::Bad => Tally { found: 0, taken: 0 },
    }
}

// Whether the expression holds, in `context`, one of the names `moving` of the places below the limit.
pub fn holds_label(
    s: &[u8],
    moving: &[u32; 1024],
    contexts: &[u16; 1024],
    limit: usize,
    context: u16,
) -> bool
    requires { limit ≤ 1024 }
    ensures { (e : Expr) (n : ℕ) → read_expr s.now ≡ got e n
        → result ≡ holds_label (keys_of moving.now contexts.now limit) context e }
{
    count_seen(s, moving, contexts, limit, context).found > 0
}
