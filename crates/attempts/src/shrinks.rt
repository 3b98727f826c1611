// Shrinks: a shorter form in an instruction's place, its operands kept.
ghost use Rattle.std.specs.Prelude.{◌≡◌, true, ◌<◌, get_or, length};
ghost use Rattle.rules.specs.Forms.{is_transfer, operands_at};
ghost use Rattle.rules.specs.Programs.{kind_of};
ghost use Rattle.slots.specs.Slots.{Slots, slot_at, Agree, Positioned};
ghost use Rattle.slots.specs.Links.{Beside};
ghost use Rattle.attempts.specs.Standing.{Standing, Tried};
ghost use Rattle.attempts.specs.Deepest.{Deepest};
ghost use Rattle.attempts.specs.Shrinks.{shrunk};
ghost use Rattle.slots.specs.State.{starts_in, forms_in, table_of};

use crate::accepting::acceptable;
use crate::reach::misses;
use rules::Place;
use slots::{State, form_in, put_form};

// A form whose only operand is its target in the place of the instruction there, if the candidate counts. "A replaced instruction may have
// no inner label with offset 1 or more in the run right before it": `deepest` has one more than the largest offset.
pub fn try_form(
    frames: &[u8],
    state: &mut State,
    count: usize,
    links: &[u16; 28672],
    values: &[i64; 1024],
    positions: &[u32; 1025],
    deepest: &[u32; 1024],
    form: u8,
    at: Place,
) -> bool
    requires { let t : Slots = table_of frames.now state.old count in
        Standing t × Deepest t deepest.now × (at.0 < count) × (kind_of (slot_at t at.0) ≡ 1) × Agree form (get_or
        (forms_in state.old) at.0 0)
        × Beside frames.now (starts_in state.old) count links.now × Positioned t positions.now
        × (is_transfer form ≡ true) × (length (operands_at form) ≡ 1) }
    ensures { let t : Slots = table_of frames.now state.old count in
        let u : Slots = table_of frames.now state.new count in
        Tried (shrunk t at.0 form) t u result }
{
    if 1 < deepest[at.0] || misses(frames, state, count, links, values, positions, form, at) {
        return false;
    }
    let old = form_in(state, at);
    put_form(state, at, form);
    if acceptable(frames, state, count, links, at) {
        return true;
    }
    put_form(state, at, old);
    false
}
