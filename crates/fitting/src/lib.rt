// The image of slots that encode, in a lent room: 12 where that is too short, before a byte is written.
#![tactic(auto)]

ghost use Rattle.std.specs.Prelude.{◌≡◌, true, length};
ghost use Rattle.rules.specs.Answers.{is_ok};
ghost use Rattle.image.specs.Tables.{Tables, tables_of, Ready};
ghost use Rattle.image.specs.Encoding.{encode_slots};
ghost use Rattle.fitting.specs.Fitting.{Leaves, fitted};

use image::{image_length, write_image};
use rules::{Refusal, Sizes};
use slots::State;

// The image of slots that encode, if the room holds it.
pub fn finish(
    frames: &[u8],
    state: &State,
    count: usize,
    links: &[u16; 28672],
    values: &[i64; 1024],
    positions: &[u32; 1025],
    image: &mut [u8],
) -> Result<Sizes, Refusal>
    requires { let d : Tables = tables_of frames.now state.now count
        links.now values.now positions.now in
        Ready d × (is_ok (encode_slots d) ≡ true) }
    ensures { let d : Tables = tables_of frames.now state.now count links.now values.now
        positions.now in
        Leaves (fitted count (length image.old) (encode_slots d)) result image.old image.new }
{
    let n = image_length(frames, state, count, positions);
    if image.len() < n {
        return Err(Refusal::Room(count));
    }
    write_image(frames, state, count, links, values, positions, image);
    Ok(Sizes {
        listing: 0,
        rewrites: 0,
        image: n,
    })
}
