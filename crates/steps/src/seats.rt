// What stands in a slot before and after a rewrite, and the first place where that is not the same.
ghost use Rattle.std.specs.Prelude.{◌≡◌, ◌≤◌};
ghost use Rattle.rules.specs.Programs.{at};
ghost use Rattle.listing.specs.Tables.{Held};
ghost use Rattle.slots.specs.Slots.{program_of};
ghost use Rattle.slots.specs.State.{starts_in, table_of};
ghost use Rattle.steps.specs.Steps.{seat_of, is_changed, changed};

use crate::Seat;
use rules::Place;
use slots::{CARRY, GONE, Slot, State, slot_at};

// What stands at a place; nothing stands behind the last.
pub fn seat_at(frames: &[u8], state: &State, count: usize, place: Place) -> Seat
    requires { Held frames.now (starts_in state.now) count }
    ensures { let t = table_of frames.now state.now count in result ≡ seat_of (at (program_of t) place.0) }
{
    let i = place.0;
    if count <= i {
        return Seat {
            form: GONE,
            carried: 0,
        };
    }
    let Slot::Form(form) = slot_at(frames, state, count, place) else {
        return Seat {
            form: GONE,
            carried: 0,
        };
    };
    Seat {
        form,
        carried: state[CARRY][i],
    }
}

// An instruction stood there, and something else does now.
fn is_changed(old: Seat, new: Seat) -> bool
    ensures { result ≡ is_changed old new }
{
    old.form != GONE && old != new
}

// The first place at which an instruction stood and something else does now; the count where there is none.
pub fn first_change(frames: &[u8], before: &State, state: &State, count: usize) -> Place
    requires { Held frames.now (starts_in before.now) count × Held frames.now (starts_in state.now) count }
    ensures { let t = table_of frames.now before.now count in
        let u = table_of frames.now state.now count in
        (result.0 ≤ count) × (result.0 ≡ changed (program_of t) (program_of u)) }
{
    for i in 0..count {
        let old = seat_at(frames, before, count, Place(i));
        let new = seat_at(frames, state, count, Place(i));
        if is_changed(old, new) {
            return Place(i);
        }
    }
    Place(count)
}
