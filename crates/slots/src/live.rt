// What stands in a slot. An instruction is told by its form, which is all that most functions ask; `instr_at` makes the enum of it.
ghost use Rattle.std.specs.Prelude.{◌≡◌, List, ℕ, ◌<◌, get_or};
ghost use Rattle.rules.specs.Instructions.{form_of};
ghost use Rattle.rules.specs.Programs.{kind_of};
ghost use Rattle.rules.specs.Statements.{statement_of};
ghost use Rattle.listing.specs.Tables.{Held};
ghost use Rattle.slots.specs.Slots.{Slots, slots, gone_form, slot_at};
ghost use Rattle.slots.specs.State.{starts_in, forms_in};
ghost use Rattle.slots.specs.Meaning.{OtherIn, meant_by, Agrees, Stands};

use crate::{GONE, SECOND, Slot, State, THIRD, form_in, frame_at, items_in, pair_in};
use instruction::forms::make;
use rules::{Arg, Instr, Place, Statement};

// The statement of a frame that is no instruction's.
fn other_in(frame: &[u8]) -> Statement
    requires { (i : ℕ) × OtherIn i frame.now }
    ensures { result ≡ statement_of frame.now }
{
    match frame[0] {
        2 => Statement::Label(pair_in(frame)),
        3 => Statement::Variable(pair_in(frame), Arg(3)),
        4 => Statement::Comment(frame.len() - 1),
        5 => Statement::Org(pair_in(frame)),
        6 => Statement::Bytes(items_in(frame), Arg(2)),
        7 => Statement::Words(items_in(frame), Arg(2)),
        _ => Statement::Pad(
            items_in(frame),
            usize::from(u16::from_be_bytes([frame[2], frame[3]])),
        ),
    }
}

// What stands in the slot at a place.
pub fn slot_at(frames: &[u8], state: &State, count: usize, at: Place) -> Slot
    requires { Held frames.now (starts_in state.now) count × (at.0 < count) }
    ensures { (carry owners offsets : List ℕ) →
        (let t : Slots = slots frames.now (starts_in state.now) count (forms_in
        state.now) carry owners offsets in
        Stands t at.0 result) }
{
    let form = form_in(state, at);
    if GONE <= form {
        return Slot::Gone;
    }
    let frame = frame_at(frames, state, count, at);
    if frame[0] == 1 {
        return Slot::Form(form);
    }
    Slot::Holds(other_in(frame))
}

// The instruction at a place, its arguments where reading found them.
pub fn instr_at(state: &State, at: Place) -> Instr
    requires { (at.0 < 1024) × (get_or (forms_in state.now) at.0 0 < gone_form) }
    ensures form { form_of result ≡ get_or (forms_in state.now) at.0 0 }
    ensures means { (frames : List ℕ) (count : ℕ) (carry owners offsets : List ℕ) →
        (let t : Slots = slots frames (starts_in state.now) count (forms_in state.now) carry owners offsets in
        Held frames (starts_in state.now) count → at.0 < count → kind_of (slot_at t at.0) ≡ 1 → Agrees t at.0
        → slot_at t at.0 ≡ meant_by t at.0 (Statement.Instr result)) }
{
    let i = at.0;
    let second = Arg(usize::from(state[SECOND][i]));
    let third = Arg(usize::from(state[THIRD][i]));
    // the form is one of the seventy
    make(form_in(state, at), Arg(2), second, third).unwrap()
}
