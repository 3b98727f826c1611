// How long each slot's line is, and the whole text: what the output needs is known before anything is written.
ghost use Rattle.std.specs.Prelude.{◌≡◌, ◌<◌, ◌≤◌, length};
ghost use Rattle.rules.specs.Output.{mark_of};
ghost use Rattle.listing.specs.Form.{form_of};
ghost use Rattle.listing.specs.Tables.{Noted, Held};
ghost use Rattle.slots.specs.Slots.{InstrIn};
ghost use Rattle.output.specs.Lines.{own_end, InstrAt, Drawn, SoundWithout, TargetHas, InstrHas, LineHas, TextHas};
ghost use Rattle.slots.specs.State.{starts_in, forms_in, carry_in, owners_in};

use instruction::tables::{is_transfer, operand_count};
use listing::line_bytes;
use rules::Place;
use slots::{NO_OWNER, Slot, State, argument_at, carry_at, form_in, frame_at, owner_at, slot_at};

// Where the target of an instruction begins in its frame; the frame's end where it has none. `at` is the frame's place.
pub fn own_end(frame: &[u8], state: &State, at: Place) -> usize
    requires { InstrIn at.0 frame.now × (at.0 < 1024) × Noted (starts_in state.now) at.0 frame.now }
    ensures { result ≡ own_end frame.now }
{
    let form = frame[1];
    if is_transfer(form) {
        argument_at(state, at, operand_count(form) - 1)
    } else {
        frame.len()
    }
}

// How many bytes the target that a place wrote has; as a plain number it has five.
fn target_length(frames: &[u8], state: &State, count: usize, from: Place) -> usize
    requires { Held frames.now (starts_in state.now) count × InstrAt frames.now (starts_in state.now) count from.0 }
    ensures { (result ≤ 28672) × TargetHas frames.now (starts_in state.now) (owners_in state.now)
        from.0 result }
{
    if owner_at(state, from) < NO_OWNER {
        return 5;
    }
    let frame = frame_at(frames, state, count, from);
    frame.len() - own_end(frame, state, from)
}

// How many bytes an instruction has: its own, and the target that it carries.
fn instruction_length(frames: &[u8], state: &State, count: usize, at: Place) -> usize
    requires { Drawn frames.now (starts_in state.now) count (forms_in state.now) (carry_in state.now) at.0 }
    ensures { (result ≤ 57344) × InstrHas frames.now (starts_in state.now) count (forms_in state.now)
        (carry_in state.now) (owners_in state.now) at.0 result }
{
    let frame = frame_at(frames, state, count, at);
    let own = own_end(frame, state, at);
    if is_transfer(form_in(state, at)) {
        own + target_length(frames, state, count, carry_at(state, at))
    } else {
        own
    }
}

// How many characters the line of a slot has, with its line feed; 0 where the slot is gone.
pub fn line_length_at(marked: bool, frames: &[u8], state: &State, count: usize, at: Place) -> usize
    requires { SoundWithout frames.now (starts_in state.now) count (forms_in state.now) (carry_in state.now) (owners_in
        state.now) × (at.0 < count) }
    ensures { (result ≤ 114697) × LineHas (form_of marked) frames.now (starts_in state.now) count (forms_in
        state.now)
        (carry_in state.now) (owners_in state.now) at.0 result }
{
    let b = line_bytes(marked);
    match slot_at(frames, state, count, at) {
        Slot::Gone => 0,
        Slot::Form(_) => 2 * (instruction_length(frames, state, count, at) + b) + 1,
        Slot::Holds(_) => 2 * (frame_at(frames, state, count, at).len() + b) + 1,
    }
}

// How many characters the line has that marks the new form.
pub fn mark_length(marked: bool) -> usize
    ensures { (result ≡ length (mark_of (form_of marked))) × (result ≤ 5) }
{
    if marked { 5 } else { 0 }
}

// How many characters the text has.
pub fn text_length(marked: bool, frames: &[u8], state: &State, count: usize) -> usize
    requires { SoundWithout frames.now (starts_in state.now) count (forms_in state.now) (carry_in state.now) (owners_in
        state.now) }
    ensures { TextHas (form_of marked) frames.now (starts_in state.now) count (forms_in state.now)
        (carry_in state.now) (owners_in state.now) result }
{
    let mut n = mark_length(marked);
    for i in 0..count {
        n += line_length_at(marked, frames, state, count, Place(i));
    }
    n
}
