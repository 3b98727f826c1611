// The public entry: the lines are counted before one is written, so that a refusal changes no lent byte.
ghost use Rattle.std.specs.Prelude.{◌≡◌, true, ◌≤◌, length};
ghost use Rattle.rules.specs.Judging.{assembles};
ghost use Rattle.slots.specs.Slots.{Slots, program_of};
ghost use Rattle.slots.specs.State.{starts_in, table_of};
ghost use Rattle.slots.specs.Links.{Beside};
ghost use Rattle.image.specs.Tables.{Tables, tables_of, Ready};
ghost use Rattle.attempts.specs.Standing.{Standing};
ghost use Rattle.why.specs.Entry.{told, told_in, told_from, end_told, Leaves};

use crate::telling::{count_whys, write_whys};
use asm::lay_and_define;
use optimize::optimize;
use rules::{Refusal, Settings, Sizes};
use slots::State;
use starting::begin;

// What stands in the way at an end form to which so many rewrites led. `positions` and `values` are those of its slots.
fn tell(
    asked: Settings,
    frames: &[u8],
    state: &State,
    count: usize,
    links: &[u16; 28672],
    values: &[i64; 1024],
    positions: &[u32; 1025],
    rewrites: usize,
    out: &mut [u8],
) -> Result<Sizes, Refusal>
    requires { let d : Tables = tables_of frames.now state.now count links.now values.now positions.now in
        Standing d.slots × Ready d × Beside frames.now (starts_in state.now) count links.now }
    ensures { let t : Slots = table_of frames.now state.now count in
        let x = told_in count (end_told asked (program_of t) rewrites) (length out.old) in
        Leaves x result out.old out.new }
{
    let n = count_whys(asked, frames, state, count, links, values, positions);
    if out.len() / 27 < n {
        return Err(Refusal::Room(count));
    }
    write_whys(asked, frames, state, count, links, values, positions, out);
    Ok(Sizes {
        listing: 27 * n,
        rewrites,
        image: 0,
    })
}

// Positions and values of an end form are found once more: it assembles, and is not refused.
fn tell_end(
    asked: Settings,
    frames: &[u8],
    state: &State,
    count: usize,
    links: &[u16; 28672],
    rewrites: usize,
    out: &mut [u8],
) -> Result<Sizes, Refusal>
    requires { let t : Slots = table_of frames.now state.now count in
        Standing t × (assembles (program_of t) ≡ true) × Beside frames.now (starts_in state.now) count links.now }
    ensures { let t : Slots = table_of frames.now state.now count in
        let x = told_in count (end_told asked (program_of t) rewrites) (length out.old) in
        Leaves x result out.old out.new }
{
    let mut positions = [0u32; 1025];
    let mut values = [0i64; 1024];
    lay_and_define(frames, state, count, links, &mut positions, &mut values)?;
    tell(
        asked, frames, state, count, links, &values, &positions, rewrites, out,
    )
}

// Rewrites an anchored program to its end form, and tells.
fn rewrite_and_tell(
    asked: Settings,
    frames: &[u8],
    state: &mut State,
    count: usize,
    links: &[u16; 28672],
    out: &mut [u8],
) -> Result<Sizes, Refusal>
    requires { let t : Slots = table_of frames.now state.old count in
        Standing t × (assembles (program_of t) ≡ true) × Beside frames.now (starts_in state.old) count links.now }
    ensures { let t : Slots = table_of frames.now state.old count in
        let x = told_in count (told_from asked (program_of t)) (length out.old) in
        Leaves x result out.old out.new }
{
    let rewrites = optimize(asked, frames, state, count, links);
    tell_end(asked, frames, state, count, links, rewrites, out)
}

// What stands in the way of each rewrite that is left, one line each. On refusal no lent byte changes.
pub fn why(asked: Settings, listing: &[u8], out: &mut [u8]) -> Result<Sizes, Refusal>
    ensures { Leaves (told asked listing.now (length out.old)) result out.old out.new }
{
    let mut frames = [0u8; 28672];
    let mut state = [[0u16; 1025]; 8];
    let mut links = [0u16; 28672];
    let count = begin(listing, &mut frames, &mut state, &mut links)?;
    rewrite_and_tell(asked, &frames, &mut state, count, &links, out)
}
