// C-15: the names that move with the code: labels, and variables that hold a label "directly or through variables", which stand above. A
// variable is looked into once a run.
ghost use Rattle.std.specs.Prelude.{◌≡◌, ◌<◌, length, get_or};
ghost use Rattle.rules.specs.Rewriting.{moving_of};
ghost use Rattle.expression.specs.Environment.{keys_of};
ghost use Rattle.listing.specs.Tables.{Held};
ghost use Rattle.slots.specs.Slots.{slot_at, program_of};
ghost use Rattle.env.specs.Tables.{Any, InContext, MovesAs};
ghost use Rattle.slots.specs.State.{starts_in, forms_in};

use crate::NO_NAME;
use expression::holds_label;
use rules::{Place, Statement};
use slots::{Slot, State, frame_at, slot_at};

// The name that the statement in a slot defines, if it moves; `moving` has those of the places above.
fn moving_at(
    frames: &[u8],
    state: &State,
    count: usize,
    contexts: &[u16; 1024],
    moving: &[u32; 1024],
    at: Place,
) -> u32
    requires { Held frames.now (starts_in state.now) count × (at.0 < count) }
    ensures { Any frames.now (starts_in state.now) count (forms_in state.now)
        (λ t. MovesAs (keys_of moving.now contexts.now at.0) (get_or contexts.now at.0 0)
        (slot_at t at.0) result) }
{
    let i = at.0;
    let Slot::Holds(statement) = slot_at(frames, state, count, at) else {
        return NO_NAME;
    };
    match statement {
        Statement::Label(n) => u32::from(n),
        Statement::Variable(n, value) => {
            let frame = frame_at(frames, state, count, at);
            let a = value.0;
            // "above it": the places below i
            if holds_label(&frame[a..], moving, contexts, i, contexts[i]) {
                u32::from(n)
            } else {
                NO_NAME
            }
        }
        Statement::Instr(_)
        | Statement::Comment(_)
        | Statement::Org(_)
        | Statement::Bytes(_, _)
        | Statement::Words(_, _)
        | Statement::Pad(_, _) => NO_NAME,
    }
}

// Fills the name that each place defines, if it moves.
pub fn fill_moving(
    frames: &[u8],
    state: &State,
    count: usize,
    contexts: &[u16; 1024],
    moving: &mut [u32; 1024],
)
    requires { Held frames.now (starts_in state.now) count × (length moving.old ≡ 1024)
        × Any frames.now (starts_in state.now) count (forms_in state.now) (λ t. InContext t contexts.now) }
    ensures { Any frames.now (starts_in state.now) count (forms_in state.now)
        (λ t. keys_of moving.new contexts.now count ≡ moving_of (program_of t)) }
{
    for i in 0..count {
        moving[i] = moving_at(frames, state, count, contexts, moving, Place(i));
    }
}
