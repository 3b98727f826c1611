// Transfer by transfer of an end form: counted, and written as lines.
ghost use Rattle.std.specs.Prelude.{◌≡◌, ◌≤◌, length};
ghost use Rattle.rules.specs.Programs.{Program};
ghost use Rattle.listing.specs.Tables.{Held, input_of};
ghost use Rattle.slots.specs.Slots.{Slots, program_of, Sound};
ghost use Rattle.slots.specs.State.{starts_in, table_of};
ghost use Rattle.digits.specs.Digits.{laid};
ghost use Rattle.targets.specs.Aimed.{AimsIn};
ghost use Rattle.targets.specs.Entry.{targets_to, target_lines, marks};

use crate::Aims;
use crate::lines::put_target;
use instruction::tables::is_transfer;
use patterns::targets::form_at;
use rules::Place;
use slots::{State, carry_at};

// How many transfers there are.
pub fn count_transfers(frames: &[u8], state: &State, count: usize) -> usize
    requires { Held frames.now (starts_in state.now) count }
    ensures { let t : Slots = table_of frames.now state.now count in
        ((p : Program) → result ≡ length (targets_to p (program_of t) count)) × (result ≤ count) }
{
    let mut n = 0;
    for i in 0..count {
        if is_transfer(form_at(frames, state, count, Place(i))) {
            n += 1;
        }
    }
    n
}

// The line of each, and how many are marked. `before` has what the targets of the listing as it was read come to, and `after` those of the
// slots.
pub fn write_lines(
    frames: &[u8],
    state: &State,
    count: usize,
    before: &Aims,
    after: &Aims,
    out: &mut [u8],
) -> usize
    requires { let t : Slots = table_of frames.now state.now count in
        let p : Program = input_of frames.now (starts_in state.now) count in
        Sound t × AimsIn p count before.now × AimsIn (program_of t) count after.now
        × (length (target_lines (targets_to p (program_of t) count)) ≤ length out.old) }
    ensures { let t : Slots = table_of frames.now state.now count in
        let p : Program = input_of frames.now (starts_in state.now) count in
        (out.new ≡ laid out.old 0 (target_lines (targets_to p (program_of t) count)))
        × (result ≡ marks (targets_to p (program_of t) count)) }
{
    let mut n = 0;
    let mut marked = 0;
    for i in 0..count {
        if !is_transfer(form_at(frames, state, count, Place(i))) {
            continue;
        }
        let c = carry_at(state, Place(i)).0;
        marked += put_target(out, 45 * n, i, c, before[c], after[i]);
        n += 1;
    }
    marked
}
