// Rule 6: "Folds come before shrinks, and after each rewrite all starts again." Rewritten until no rewrite remains.
ghost use Rattle.std.specs.Prelude.{◌≡◌, true};
ghost use Rattle.rules.specs.Judging.{assembles};
ghost use Rattle.rules.specs.Rewriting.{step};
ghost use Rattle.slots.specs.Slots.{Slots, slots, program_of};
ghost use Rattle.slots.specs.Links.{Beside};
ghost use Rattle.attempts.specs.Standing.{Standing, Tried};
ghost use Rattle.optimize.specs.Optimized.{Optimized};
ghost use Rattle.slots.specs.State.{starts_in, forms_in, carry_in, owners_in, offsets_in, table_of};

use crate::scanning::fold_asked;
use crate::shrinking::shrink;
use rules::Settings;
use slots::State;

// One rewrite, if one remains.
pub fn rewrite(
    asked: Settings,
    frames: &[u8],
    state: &mut State,
    count: usize,
    links: &[u16; 28672],
) -> bool
    requires { let t : Slots = table_of frames.now state.old count in
        Standing t × (assembles (program_of t) ≡ true) × Beside frames.now (starts_in state.old) count links.now }
    ensures { let t : Slots = table_of frames.now state.old count in
        let u : Slots = table_of frames.now state.new count in
        Tried (step asked (program_of t)) t u result }
{
    fold_asked(asked, frames, state, count, links) || shrink(asked, frames, state, count, links)
}

// Rewrites until no rewrite remains, and counts them.
pub fn optimize(
    asked: Settings,
    frames: &[u8],
    state: &mut State,
    count: usize,
    links: &[u16; 28672],
) -> usize
    requires { let t : Slots = table_of frames.now state.old count in
        Standing t × (assembles (program_of t) ≡ true) × Beside frames.now (starts_in state.old) count links.now }
    ensures { let t : Slots = table_of frames.now state.old count in
        let u : Slots = table_of frames.now state.new count in
        Optimized asked t u result }
{
    let mut rewrites = 0;
    while rewrite(asked, frames, state, count, links) {
        rewrites += 1;
    }
    rewrites
}
