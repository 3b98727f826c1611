// The public entry: 12 is judged before a line is written, so that a refusal changes no lent byte.
ghost use Rattle.std.specs.Prelude.{◌≡◌, true, length};
ghost use Rattle.rules.specs.Programs.{Program};
ghost use Rattle.rules.specs.Judging.{assembles};
ghost use Rattle.rules.specs.Rewriting.{optimized};
ghost use Rattle.listing.specs.Tables.{input_of};
ghost use Rattle.slots.specs.Slots.{Slots, program_of};
ghost use Rattle.slots.specs.State.{starts_in, table_of};
ghost use Rattle.slots.specs.Links.{Beside};
ghost use Rattle.attempts.specs.Standing.{Standing};
ghost use Rattle.starting.specs.Begun.{Holds};
ghost use Rattle.mapping.specs.Entry.{mapped, Leaves, Fits, Addressed};

use crate::Counts;
use crate::laying::find_positions;
use crate::writing::{count_rows, write_rows};
use optimize::optimize;
use rules::{Refusal, Settings};
use slots::State;
use starting::begin;

// The rows of an end form. `before` has the addresses of the listing as it was read.
fn tell_rows(
    frames: &[u8],
    state: &State,
    count: usize,
    links: &[u16; 28672],
    before: &[u32; 1025],
    out: &mut [u8],
) -> Result<Counts, Refusal>
    requires { let t : Slots = table_of frames.now state.now count in
        Standing t × (assembles (program_of t) ≡ true) × Beside frames.now (starts_in state.now) count links.now
        × Addressed (input_of frames.now (starts_in state.now) count) count before.now }
    ensures { let t : Slots = table_of frames.now state.now count in
        let p : Program = input_of frames.now (starts_in state.now) count in
        Fits p (program_of t) result out.old out.new }
{
    let n = count_rows(frames, state, count);
    if out.len() / 37 < n {
        return Err(Refusal::Room(count));
    }
    let mut after = [0u32; 1025];
    find_positions(frames, state, count, links, &mut after);
    write_rows(frames, state, count, before, &after, out);
    Ok(Counts {
        bytes: 37 * n,
        rows: n,
    })
}

// Anchoring leaves each statement where it was: the addresses are asked before the rewriting, and after it.
fn rewrite_and_tell(
    asked: Settings,
    frames: &[u8],
    state: &mut State,
    count: usize,
    links: &[u16; 28672],
    out: &mut [u8],
) -> Result<Counts, Refusal>
    requires { let p : Program = input_of frames.now (starts_in state.old) count in
        Holds p (table_of frames.now state.old count) links.now }
    ensures { let p : Program = input_of frames.now (starts_in state.old) count in
        Fits p (optimized asked p).program result out.old out.new }
{
    let mut before = [0u32; 1025];
    find_positions(frames, state, count, links, &mut before);
    optimize(asked, frames, state, count, links);
    tell_rows(frames, state, count, links, &before, out)
}

// Where each instruction and each piece of data stands before and after, one line each. The lines stand in the lent room; or
// the refusal, and no lent byte changes.
pub fn mapping(asked: Settings, listing: &[u8], out: &mut [u8]) -> Result<Counts, Refusal>
    ensures { Leaves (mapped asked listing.now (length out.old)) result out.old out.new }
{
    let mut frames = [0u8; 28672];
    let mut state = [[0u16; 1025]; 8];
    let mut links = [0u16; 28672];
    let count = begin(listing, &mut frames, &mut state, &mut links)?;
    rewrite_and_tell(asked, &frames, &mut state, count, &links, out)
}
