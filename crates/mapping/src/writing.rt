// Row by row of a listing and its end form: counted, and written as lines.
ghost use Rattle.std.specs.Prelude.{◌≡◌, ◌≤◌, length};
ghost use Rattle.rules.specs.Programs.{Program};
ghost use Rattle.listing.specs.Tables.{Held, input_of};
ghost use Rattle.slots.specs.Slots.{Slots, program_of};
ghost use Rattle.slots.specs.State.{starts_in, table_of};
ghost use Rattle.digits.specs.Digits.{laid};
ghost use Rattle.mapping.specs.Rows.{rows_to};
ghost use Rattle.mapping.specs.Entry.{Addressed, row_lines};

use crate::rows::{has_row, row_at};
use digits::put_line;
use rules::Place;
use slots::State;

// How many rows there are.
pub fn count_rows(frames: &[u8], state: &State, count: usize) -> usize
    requires { Held frames.now (starts_in state.now) count }
    ensures { let p : Program = input_of frames.now (starts_in state.now) count in
        ((e : Program) → result ≡ length (rows_to p e count)) × (result ≤ count) }
{
    (0..count)
        .filter(|&i| has_row(frames, state, count, Place(i)))
        .count()
}

// The line of each.
pub fn write_rows(
    frames: &[u8],
    state: &State,
    count: usize,
    before: &[u32; 1025],
    after: &[u32; 1025],
    out: &mut [u8],
)
    requires { let t : Slots = table_of frames.now state.now count in
        let p : Program = input_of frames.now (starts_in state.now) count in
        Held frames.now (starts_in state.now) count × Addressed (program_of t) count after.now × Addressed p count before.now
        × (length (row_lines (rows_to p (program_of t) count)) ≤ length out.old) }
    ensures { let t : Slots = table_of frames.now state.now count in
        let p : Program = input_of frames.now (starts_in state.now) count in
        out.new ≡ laid out.old 0 (row_lines (rows_to p (program_of t) count)) }
{
    let mut n = 0;
    for i in 0..count {
        if has_row(frames, state, count, Place(i)) {
            let row = row_at(frames, state, count, before, after, Place(i));
            put_line(out, 37 * n, &row);
            n += 1;
        }
    }
}
