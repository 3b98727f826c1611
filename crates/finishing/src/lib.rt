// An end form is judged once more, and its listing and image are written if both rooms hold them, and the list's room its stems.
#![tactic(auto)]

ghost use Rattle.std.specs.Prelude.{◌≡◌, true};
ghost use Rattle.rules.specs.Listing.{Beside as Lines};
ghost use Rattle.rules.specs.Judging.{assembles};
ghost use Rattle.output.specs.Lines.{beside_in};
ghost use Rattle.slots.specs.Slots.{Slots, program_of};
ghost use Rattle.slots.specs.State.{starts_in, table_of};
ghost use Rattle.slots.specs.Links.{Beside};
ghost use Rattle.attempts.specs.Standing.{Standing};
ghost use Rattle.finishing.specs.Ending.{result_of, Fitted};

use asm::judge_linked;
use image::{image_length, write_image};
use output::{count_stems, text_length, write_text};
use rules::{Refusal, Settings, Sizes};
use slots::State;

// What a run is asked for: the switches, the listing's form, and how many bytes are lent for the list of stems (C-13).
#[derive(Clone, Copy)]
pub struct Wanted {
    pub settings: Settings,
    pub marked: bool,
    pub list: usize,
}

// The listing and the image of an end form, `rewrites` being how many rewrites led to it. Positions and values are found once more: it
// assembles. All rooms are judged before a byte is written. The answer is what is in the lent rooms; or the refusal.
pub fn judge_end(
    wanted: Wanted,
    lines: &[u32; 1024],
    frames: &[u8],
    state: &State,
    count: usize,
    links: &[u16; 28672],
    rewrites: usize,
    out: &mut [u8],
    image: &mut [u8],
) -> Result<Sizes, Refusal>
    requires { let t : Slots = table_of frames.now state.now count in
        Standing t × (assembles (program_of t) ≡ true) × Beside frames.now (starts_in state.now) count links.now }
    ensures { let t : Slots = table_of frames.now state.now count in
        let marks : Lines = beside_in wanted.marked lines.now count in
        Fitted count wanted.list (result_of marks (program_of t) rewrites) result out.old image.old
        out.new image.new }
{
    let mut positions = [0u32; 1025];
    let mut values = [0i64; 1024];
    judge_linked(frames, state, count, links, &mut positions, &mut values)?;
    let marked = wanted.marked;
    let listing_size = text_length(marked, frames, state, count);
    let image_size = image_length(frames, state, count, &positions);
    if out.len() < listing_size
        || image.len() < image_size
        || wanted.list < 2 * count_stems(count, state)
    {
        return Err(Refusal::Room(count));
    }
    write_text(marked, lines, frames, state, count, &positions, out);
    write_image(frames, state, count, links, &values, &positions, image);
    Ok(Sizes {
        listing: listing_size,
        rewrites,
        image: image_size,
    })
}
