// Whether a candidate assembles: yes or no. A rewrite adds no name, so 3 is never asked again.
ghost use Rattle.std.specs.Prelude.{◌≡◌, true, ◌<◌, length};
ghost use Rattle.rules.specs.Answers.{is_ok};
ghost use Rattle.rules.specs.Judging.{assembles};
ghost use Rattle.slots.specs.Slots.{Slots, program_of, Positioned, Sound};
ghost use Rattle.slots.specs.Links.{Beside, Together};
ghost use Rattle.image.specs.Tables.{Tables, tables_of, Ready};
ghost use Rattle.image.specs.Encoding.{encode_slots};
ghost use Rattle.asm.specs.Assembling.{InPlace, Once};
ghost use Rattle.slots.specs.State.{starts_in, table_of};

use env::settle_all;
use image::{encode_all, encodes_at};
use rules::Place;
use slots::State;

// Whether all statements encode. The one at the hint is looked at first.
fn encodes_all(
    frames: &[u8],
    state: &State,
    count: usize,
    links: &[u16; 28672],
    values: &[i64; 1024],
    positions: &[u32; 1025],
    hint: Place,
) -> bool
    requires { let d : Tables = tables_of frames.now state.now count
        links.now values.now positions.now in
        Ready d × (hint.0 < count) }
    ensures { let d : Tables = tables_of frames.now state.now count links.now values.now
        positions.now in
        result ≡ is_ok (encode_slots d) }
{
    encodes_at(frames, state, count, links, values, positions, hint)
        && encode_all(frames, state, count, links, values, positions).is_ok()
}

// Whether the program assembles, and where it does, its positions. It looks first where it is likely to fail: at the statement that a
// rewrite changed. `links` are those of the listing as it was read, and no name is defined twice.
pub fn assembles(
    frames: &[u8],
    state: &State,
    count: usize,
    links: &[u16; 28672],
    hint: Place,
    positions: &mut [u32; 1025],
) -> bool
    requires { let t : Slots = table_of frames.now state.now count in
        Sound t × InPlace t × Together t × Once t × Beside frames.now (starts_in state.now) count links.now
        × (hint.0 < count) × (length positions.old ≡ 1025) }
    ensures { let t : Slots = table_of frames.now state.now count in
        (result ≡ assembles (program_of t)) × (result ≡ true → Positioned t positions.new) }
{
    let mut values = [0i64; 1024];
    // 4 to 7, then the encoding
    settle_all(frames, state, count, links, positions, &mut values)
        && encodes_all(frames, state, count, links, &values, positions, hint)
}
