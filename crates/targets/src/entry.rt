// The public entry: 12 is judged before a line is written, so that a refusal changes no lent byte.
ghost use Rattle.std.specs.Prelude.{◌≡◌, true, ◌≤◌, length};
ghost use Rattle.rules.specs.Programs.{Program};
ghost use Rattle.rules.specs.Judging.{assembles};
ghost use Rattle.rules.specs.Rewriting.{optimized};
ghost use Rattle.listing.specs.Tables.{input_of};
ghost use Rattle.slots.specs.Slots.{Slots, program_of};
ghost use Rattle.slots.specs.State.{starts_in, table_of};
ghost use Rattle.slots.specs.Links.{Beside};
ghost use Rattle.attempts.specs.Standing.{Standing};
ghost use Rattle.starting.specs.Begun.{Holds};
ghost use Rattle.digits.specs.Digits.{laid};
ghost use Rattle.targets.specs.Aimed.{AimsIn};
ghost use Rattle.targets.specs.Entry.{told, Leaves, Fits, targets_to, target_lines, marks};

use crate::filling::{find_aims, find_aims_read};
use crate::writing::{count_transfers, write_lines};
use crate::{Aims, Counts};
use optimize::optimize;
use rules::{Refusal, Settings};
use slots::State;
use starting::begin;

// The lines of an end form. `before` has what the targets of the listing as it was read come to.
fn write_end(
    frames: &[u8],
    state: &State,
    count: usize,
    links: &[u16; 28672],
    before: &Aims,
    out: &mut [u8],
) -> usize
    requires { let t : Slots = table_of frames.now state.now count in
        let p : Program = input_of frames.now (starts_in state.now) count in
        Standing t × (assembles (program_of t) ≡ true) × Beside frames.now (starts_in state.now) count links.now
        × AimsIn p count before.now × (length (target_lines (targets_to p (program_of t) count)) ≤ length out.old) }
    ensures { let t : Slots = table_of frames.now state.now count in
        let p : Program = input_of frames.now (starts_in state.now) count in
        (out.new ≡ laid out.old 0 (target_lines (targets_to p (program_of t) count)))
        × (result ≡ marks (targets_to p (program_of t) count)) }
{
    let mut after = [[0u8; 8]; 1024];
    find_aims(frames, state, count, links, &mut after);
    write_lines(frames, state, count, before, &after, out)
}

// The room is judged first.
fn tell_end(
    frames: &[u8],
    state: &State,
    count: usize,
    links: &[u16; 28672],
    before: &Aims,
    out: &mut [u8],
) -> Result<Counts, Refusal>
    requires { let t : Slots = table_of frames.now state.now count in
        Standing t × (assembles (program_of t) ≡ true) × Beside frames.now (starts_in state.now) count links.now
        × AimsIn (input_of frames.now (starts_in state.now) count) count before.now }
    ensures { let t : Slots = table_of frames.now state.now count in
        let p : Program = input_of frames.now (starts_in state.now) count in
        Fits p (program_of t) result out.old out.new }
{
    let n = count_transfers(frames, state, count);
    if out.len() / 45 < n {
        return Err(Refusal::Room(count));
    }
    let marked = write_end(frames, state, count, links, before, out);
    Ok(Counts {
        bytes: 45 * n,
        transfers: n,
        marked,
    })
}

// What the targets came to is asked before the rewriting, and what they come to after it.
fn rewrite_and_tell(
    asked: Settings,
    frames: &[u8],
    state: &mut State,
    count: usize,
    links: &[u16; 28672],
    out: &mut [u8],
) -> Result<Counts, Refusal>
    requires { let p : Program = input_of frames.now (starts_in state.old) count in
        Holds p (table_of frames.now state.old count) links.now }
    ensures { let p : Program = input_of frames.now (starts_in state.old) count in
        Fits p (optimized asked p).program result out.old out.new }
{
    let mut before = [[0u8; 8]; 1024];
    find_aims_read(frames, state, count, links, &mut before);
    optimize(asked, frames, state, count, links);
    tell_end(frames, state, count, links, &before, out)
}

// What each transfer of the output names, one line each: the lines stand in the lent room; or the refusal, and no lent byte changes.
pub fn targets(asked: Settings, listing: &[u8], out: &mut [u8]) -> Result<Counts, Refusal>
    ensures { Leaves (told asked listing.now (length out.old)) result out.old out.new }
{
    let mut frames = [0u8; 28672];
    let mut state = [[0u16; 1025]; 8];
    let mut links = [0u16; 28672];
    let count = begin(listing, &mut frames, &mut state, &mut links)?;
    rewrite_and_tell(asked, &frames, &mut state, count, &links, out)
}
