// C-18: comments leave the slots once all rewriting is done, unless they are asked for.
ghost use Rattle.std.specs.Prelude.{◌≡◌, List, ℕ, ◌<◌, length, get_or};
ghost use Rattle.rules.specs.Programs.{kind_of};
ghost use Rattle.listing.specs.Tables.{Held};
ghost use Rattle.slots.specs.Slots.{Slots, slots, slot_at, Sound};
ghost use Rattle.slots.specs.State.{starts_in, forms_in, table_of};
ghost use Rattle.output.specs.Showing.{shown_form, formed, Shown};

use rules::{Place, Settings, Statement};
use slots::{GONE, Slot, State, form_in, put_form, slot_at};

// The form of a place from now on.
fn shown_form(asked: Settings, frames: &[u8], state: &State, count: usize, at: Place) -> u8
    requires { Held frames.now (starts_in state.now) count × (at.0 < count) }
    ensures { (carry owners offsets : List ℕ) →
        (let t : Slots = slots frames.now (starts_in state.now) count (forms_in
        state.now) carry owners offsets in
        result ≡ shown_form asked (kind_of (slot_at t at.0)) (get_or (forms_in state.now) at.0 0)) }
{
    match slot_at(frames, state, count, at) {
        Slot::Holds(Statement::Comment(_)) if !asked.comments => GONE,
        _ => form_in(state, at),
    }
}

// Comments that are not asked for become slots that are gone.
pub fn show(asked: Settings, frames: &[u8], state: &mut State, count: usize)
    requires { Sound (table_of frames.now state.old count) × (length (forms_in state.old) ≡ 1025) }
    ensures room { (length (forms_in state.new) ≡ 1025) × (starts_in state.new ≡ starts_in state.old) }
    ensures shows { let t : Slots = table_of frames.now state.old count in
        let forms : List ℕ = forms_in state.new in
        (table_of frames.now state.new count ≡ formed t forms) × Shown asked t (formed t forms) }
{
    for i in 0..count {
        let shown = shown_form(asked, frames, state, count, Place(i));
        put_form(state, Place(i), shown);
    }
}
