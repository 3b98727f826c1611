// A listing is read, judged, anchored, rewritten and written, as it is asked for. Each phase declares the tables that it fills and hands
// them on.
ghost use Rattle.std.specs.Prelude.{◌≡◌, true, length};
ghost use Rattle.rules.specs.Programs.{Program};
ghost use Rattle.rules.specs.Listing.{Beside as Lines};
ghost use Rattle.rules.specs.Judging.{assembles};
ghost use Rattle.promises.specs.Demand2.{Answered};
ghost use Rattle.listing.specs.Tables.{input_of, Held};
ghost use Rattle.env.specs.Tables.{Any};
ghost use Rattle.output.specs.Lines.{beside_in};
ghost use Rattle.slots.specs.Slots.{Slots, program_of, Sound};
ghost use Rattle.slots.specs.State.{starts_in, forms_in, table_of};
ghost use Rattle.slots.specs.Links.{Beside};
ghost use Rattle.asm.specs.Assembling.{Placed, Whole};
ghost use Rattle.attempts.specs.Standing.{Standing};
ghost use Rattle.anchors.specs.Anchored.{AsRead};
ghost use Rattle.rules.specs.Answers.{Judged};
ghost use Rattle.rules.specs.Run.{Output};
ghost use Rattle.output.specs.Stems.{kept_to};
ghost use Rattle.finishing.specs.Ending.{Delivers, Fitted};
ghost use Rattle.entries.specs.Optimizing.{rewritten, judged_run, Full, Left};
ghost use Rattle.entries.specs.Stems.{run_stems, Stems};

use anchors::anchor;
use asm::{judge, start_state};
use env::fill_contexts;
use finishing::{Wanted, judge_end};
use listing::{Starts, new_form, read_listing};
use optimize::optimize;
use output::{show, write_stems};
use rules::{Refusal, Settings, Sizes};
use slots::State;

// Rewrites an anchored program to its end form, and writes it, without its comments unless they are asked for.
fn rewrite_anchored(
    wanted: Wanted,
    lines: &[u32; 1024],
    frames: &[u8],
    state: &mut State,
    count: usize,
    links: &[u16; 28672],
    out: &mut [u8],
    image: &mut [u8],
) -> Result<Sizes, Refusal>
    requires { let t : Slots = table_of frames.now state.old count in
        Standing t × (assembles (program_of t) ≡ true) × Beside frames.now (starts_in state.old) count links.now }
    ensures { let t : Slots = table_of frames.now state.old count in
        let marks : Lines = beside_in wanted.marked lines.now count in
        let o : Output = rewritten wanted.settings marks (program_of t) in
        Fitted count wanted.list o result out.old image.old out.new image.new
        × (kept_to (forms_in state.new) count ≡ o.stems) }
{
    let asked = wanted.settings;
    let rewrites = optimize(asked, frames, state, count, links);
    show(asked, frames, state, count);
    judge_end(
        wanted, lines, frames, state, count, links, rewrites, out, image,
    )
}

// Judges a program as read: what does not assemble is refused before anything else. Then its targets are anchored, by the state as it was
// read.
fn judge_read(
    wanted: Wanted,
    lines: &[u32; 1024],
    frames: &[u8],
    state: &mut State,
    count: usize,
    contexts: &[u16; 1024],
    out: &mut [u8],
    image: &mut [u8],
) -> Result<Sizes, Refusal>
    requires { let t : Slots = table_of frames.now state.old count in
        Sound t × AsRead t × Full state.old
        × Any frames.now (starts_in state.old) count (forms_in state.old) (λ u. Placed u contexts.now × Whole u) }
    ensures { let t : Slots = table_of frames.now state.old count in
        let marks : Lines = beside_in wanted.marked lines.now count in
        let x : Judged Output = judged_run wanted.settings marks (length out.old) (length image.old) wanted.list
        (program_of t) in
        Delivers x result out.old image.old out.new image.new
        × Left x (forms_in state.new) count }
{
    let mut links = [0u16; 28672];
    let mut positions = [0u32; 1025];
    let mut values = [0i64; 1024];
    judge(
        frames,
        state,
        count,
        contexts,
        &mut links,
        &mut positions,
        &mut values,
    )?;
    let read = *state;
    anchor(
        frames, &read, count, contexts, &links, &values, &positions, state,
    );
    rewrite_anchored(wanted, lines, frames, state, count, &links, out, image)
}

// The contexts are found first: they stay the same to the end, and links are made of them.
fn place_read(
    wanted: Wanted,
    lines: &[u32; 1024],
    frames: &[u8],
    state: &mut State,
    count: usize,
    out: &mut [u8],
    image: &mut [u8],
) -> Result<Sizes, Refusal>
    requires { let t : Slots = table_of frames.now state.old count in
        Sound t × AsRead t × Full state.old × Whole t }
    ensures { let t : Slots = table_of frames.now state.old count in
        let marks : Lines = beside_in wanted.marked lines.now count in
        let x : Judged Output = judged_run wanted.settings marks (length out.old) (length image.old) wanted.list
        (program_of t) in
        Delivers x result out.old image.old out.new image.new
        × Left x (forms_in state.new) count }
{
    let mut contexts = [0u16; 1024];
    fill_contexts(frames, state, count, &mut contexts);
    judge_read(wanted, lines, frames, state, count, &contexts, out, image)
}

// The slots of a listing as read: no target is an inner label. The list is written last, of the slots that are left.
fn optimize_read(
    asked: Settings,
    marked: bool,
    lines: &[u32; 1024],
    frames: &[u8],
    starts: &Starts,
    count: usize,
    out: &mut [u8],
    image: &mut [u8],
    list: &mut [u8],
) -> Result<(Sizes, usize), Refusal>
    requires { Held frames.now starts.now count }
    ensures { let marks : Lines = beside_in marked lines.now count in
        let p : Program = input_of frames.now starts.now count in
        let x : Judged Output = judged_run asked marks (length out.old) (length image.old)
        (length list.old) p in
        Stems x result out.old image.old list.old
        out.new image.new list.new }
{
    let mut state = start_state(starts, count);
    let wanted = Wanted {
        settings: asked,
        marked,
        list: list.len(),
    };
    let sizes = place_read(wanted, lines, frames, &mut state, count, out, image)?;
    Ok((sizes, write_stems(count, &state, list)))
}

// C-13: reads a listing, judges it, rewrites it and writes the new listing, its image and the list of the places that its statements
// stem from. The answer is what is in the lent rooms, and how many statements came out: the list has two bytes for each. On refusal no
// lent byte changes.
pub fn optimize_stems(
    asked: Settings,
    listing: &[u8],
    out: &mut [u8],
    image: &mut [u8],
    list: &mut [u8],
) -> Result<(Sizes, usize), Refusal>
    ensures { let x : Judged Output = run_stems asked listing.now (length out.old) (length image.old)
        (length list.old) in
        Stems x result out.old image.old list.old
        out.new image.new list.new }
{
    let mut frames = [0u8; 28672];
    let mut starts = [0u16; 4100];
    let mut lines = [0u32; 1024];
    let marked = new_form(listing);
    let count = read_listing(listing, &mut frames, &mut starts, &mut lines)?;
    optimize_read(
        asked, marked, &lines, &frames, &starts, count, out, image, list,
    )
}

// The same without the list: a room of 2,048 bytes is never too short for it.
pub fn optimize_jumps(
    asked: Settings,
    listing: &[u8],
    out: &mut [u8],
    image: &mut [u8],
) -> Result<Sizes, Refusal>
    ensures { Answered asked listing.now out.old image.old result
        out.new image.new }
{
    let mut list = [0u8; 2048];
    let (sizes, _) = optimize_stems(asked, listing, out, image, &mut list)?;
    Ok(sizes)
}
