// Which statements a pattern consists of.
ghost use Rattle.std.specs.Prelude.{◌≡◌, List, not, ℕ, ◌<◌};
ghost use Rattle.rules.specs.Rewriting.{insignificant};
ghost use Rattle.rules.specs.Rewriting.{next as next_place};
ghost use Rattle.listing.specs.Tables.{Held};
ghost use Rattle.slots.specs.Slots.{slots, slot_at, program_of};
ghost use Rattle.slots.specs.State.{starts_in, forms_in};

use rules::{Place, Statement};
use slots::{Slot, State, slot_at};

// "All but comments are significant." A slot that is gone holds no statement.
fn significant_at(frames: &[u8], state: &State, count: usize, at: Place) -> bool
    requires { Held frames.now (starts_in state.now) count × (at.0 < count) }
    ensures { (carry owners offsets : List ℕ) →
        (let t = slots frames.now (starts_in state.now) count (forms_in state.now) carry owners offsets in
        result ≡ not (insignificant (slot_at t at.0))) }
{
    !matches!(
        slot_at(frames, state, count, at),
        Slot::Gone | Slot::Holds(Statement::Comment(_))
    )
}

// The first significant place from a place on; where there is none, a place behind the last.
pub fn next(frames: &[u8], state: &State, count: usize, from: Place) -> Place
    requires { Held frames.now (starts_in state.now) count }
    ensures { (carry owners offsets : List ℕ) →
        (let t = slots frames.now (starts_in state.now) count (forms_in state.now) carry owners offsets in
        result.0 ≡ next_place (program_of t) from.0) }
{
    let found = (from.0..count).find(|&j| significant_at(frames, state, count, Place(j)));
    Place(found.unwrap_or(from.0.max(count)))
}
