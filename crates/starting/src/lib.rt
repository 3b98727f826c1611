// A listing read, judged and anchored, its tables lent by the caller: what an answer about the rewriting starts from.
#![tactic(auto)]

ghost use Rattle.std.specs.Prelude.{◌≡◌, ℕ, length};
ghost use Rattle.listing.specs.Tables.{input_of, Held};
ghost use Rattle.env.specs.Tables.{Any};
ghost use Rattle.slots.specs.Slots.{Slots, program_of, Sound};
ghost use Rattle.slots.specs.State.{starts_in, forms_in, table_of};
ghost use Rattle.asm.specs.Assembling.{Placed, Whole};
ghost use Rattle.anchors.specs.Anchored.{AsRead};
ghost use Rattle.entries.specs.Optimizing.{Full};
ghost use Rattle.starting.specs.Begun.{accepted, AnchoredAs, BegunAs};

use anchors::anchor;
use asm::{judge, start_state};
use env::fill_contexts;
use listing::{Starts, read_listing};
use rules::Refusal;
use slots::State;

// Judges the slots of a listing as read, and anchors its targets, by the state as it was read.
fn judge_and_anchor(
    frames: &[u8],
    state: &mut State,
    count: usize,
    contexts: &[u16; 1024],
    links: &mut [u16; 28672],
) -> Result<(), Refusal>
    requires { let t : Slots = table_of frames.now state.old count in
        Sound t × AsRead t × Full state.old × (length links.old ≡ 28672)
        × Any frames.now (starts_in state.old) count (forms_in state.old) (λ u. Placed u contexts.now × Whole u) }
    ensures { let t : Slots = table_of frames.now state.old count in
        let u : Slots = table_of frames.now state.new count in
        AnchoredAs (program_of t) result u links.new
        × (starts_in state.new ≡ starts_in state.old) }
{
    let mut positions = [0u32; 1025];
    let mut values = [0i64; 1024];
    judge(
        frames,
        state,
        count,
        contexts,
        links,
        &mut positions,
        &mut values,
    )?;
    let read = *state;
    anchor(
        frames, &read, count, contexts, links, &values, &positions, state,
    );
    Ok(())
}

// The contexts are found first: names are found by them.
fn place_slots(
    frames: &[u8],
    state: &mut State,
    count: usize,
    links: &mut [u16; 28672],
) -> Result<(), Refusal>
    requires { let t : Slots = table_of frames.now state.old count in
        Sound t × AsRead t × Full state.old × (length links.old ≡ 28672) × Whole t }
    ensures { let t : Slots = table_of frames.now state.old count in
        let u : Slots = table_of frames.now state.new count in
        AnchoredAs (program_of t) result u links.new
        × (starts_in state.new ≡ starts_in state.old) }
{
    let mut contexts = [0u16; 1024];
    fill_contexts(frames, state, count, &mut contexts);
    judge_and_anchor(frames, state, count, &contexts, links)
}

// The slots of a listing as read: each instruction with its own form and target, and no target an inner label.
fn start_slots(
    frames: &[u8],
    starts: &Starts,
    count: usize,
    state: &mut State,
    links: &mut [u16; 28672],
) -> Result<(), Refusal>
    requires { Held frames.now starts.now count × (length links.old ≡ 28672) }
    ensures { let t : Slots = table_of frames.now state.new count in
        AnchoredAs (input_of frames.now starts.now count) result t links.new
        × (starts_in state.new ≡ starts.now) }
{
    *state = start_state(starts, count);
    place_slots(frames, state, count, links)
}

// Reads a listing, judges it as it stands and anchors its targets. Of an accepted one the tables hold what the rewriting starts from: the
// answer is how many statements stand there, anchored; or the first refusal.
pub fn begin(
    listing: &[u8],
    frames: &mut [u8; 28672],
    state: &mut State,
    links: &mut [u16; 28672],
) -> Result<usize, Refusal>
    requires { (length frames.old ≡ 28672) × (length links.old ≡ 28672) }
    ensures { let over : (n : ℕ) → Slots = λ n. table_of frames.new state.new n in
        BegunAs (accepted listing.now) result over links.new }
{
    let mut starts = [0u16; 4100];
    let mut lines = [0u32; 1024];
    let count = read_listing(listing, frames, &mut starts, &mut lines)?;
    start_slots(frames, &starts, count, state, links)?;
    Ok(count)
}
