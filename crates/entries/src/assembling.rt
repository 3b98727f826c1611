// A listing is read, judged as it stands, and its image written. Each phase declares the tables that it fills and hands them on.
ghost use Rattle.std.specs.Prelude.{length};
ghost use Rattle.rules.specs.Programs.{Program};
ghost use Rattle.rules.specs.Run.{assembled};
ghost use Rattle.listing.specs.Tables.{input_of, Held};
ghost use Rattle.env.specs.Tables.{Any};
ghost use Rattle.slots.specs.Slots.{Slots, program_of, Sound};
ghost use Rattle.slots.specs.Links.{Together};
ghost use Rattle.asm.specs.Assembling.{Placed, Whole};
ghost use Rattle.fitting.specs.Fitting.{Leaves};
ghost use Rattle.entries.specs.Assembling.{image_in};
ghost use Rattle.slots.specs.State.{starts_in, forms_in, table_of};

use asm::{judge, start_state};
use env::fill_contexts;
use fitting::finish;
use listing::{Starts, read_listing};
use rules::{Refusal, Sizes};
use slots::State;

// Judges the slots, and writes their image.
fn judge_slots(
    frames: &[u8],
    state: &State,
    count: usize,
    contexts: &[u16; 1024],
    image: &mut [u8],
) -> Result<Sizes, Refusal>
    requires { let t : Slots = table_of frames.now state.now count in
        Sound t × Together t × Any frames.now (starts_in state.now) count (forms_in state.now) (λ u. Placed u contexts.now
        × Whole u) }
    ensures { let t : Slots = table_of frames.now state.now count in
        Leaves (image_in (length image.old) (program_of t)) result image.old image.new }
{
    let mut links = [0u16; 28672];
    let mut positions = [0u32; 1025];
    let mut values = [0i64; 1024];
    judge(
        frames,
        state,
        count,
        contexts,
        &mut links,
        &mut positions,
        &mut values,
    )?;
    finish(frames, state, count, &links, &values, &positions, image)
}

// The contexts are found first: names are found by them.
fn place_slots(
    frames: &[u8],
    state: &State,
    count: usize,
    image: &mut [u8],
) -> Result<Sizes, Refusal>
    requires { let t : Slots = table_of frames.now state.now count in
        Sound t × Together t × Whole t }
    ensures { let t : Slots = table_of frames.now state.now count in
        Leaves (image_in (length image.old) (program_of t)) result image.old image.new }
{
    let mut contexts = [0u16; 1024];
    fill_contexts(frames, state, count, &mut contexts);
    judge_slots(frames, state, count, &contexts, image)
}

// The slots of a listing as read: no target is an inner label.
fn assemble_read(
    frames: &[u8],
    starts: &Starts,
    count: usize,
    image: &mut [u8],
) -> Result<Sizes, Refusal>
    requires { Held frames.now starts.now count }
    ensures { let p : Program = input_of frames.now starts.now count in
        Leaves (image_in (length image.old) p) result image.old image.new }
{
    let state = start_state(starts, count);
    place_slots(frames, &state, count, image)
}

// Reads a listing, judges it as it stands and writes its image. On refusal no lent byte changes.
pub fn assemble(listing: &[u8], image: &mut [u8]) -> Result<Sizes, Refusal>
    ensures { Leaves (assembled listing.now (length image.old)) result
        image.old image.new }
{
    let mut frames = [0u8; 28672];
    let mut starts = [0u16; 4100];
    let mut lines = [0u32; 1024];
    let count = read_listing(listing, &mut frames, &mut starts, &mut lines)?;
    assemble_read(&frames, &starts, count, image)
}
