// What the target of each transfer of a program comes to, by place.
ghost use Rattle.std.specs.Prelude.{◌≡◌, true, List, ℕ, ◌<◌, length};
ghost use Rattle.rules.specs.Forms.{is_transfer};
ghost use Rattle.rules.specs.Judging.{assembles};
ghost use Rattle.listing.specs.Tables.{Held, input_of};
ghost use Rattle.slots.specs.Slots.{Slots, program_of};
ghost use Rattle.slots.specs.State.{starts_in, table_of};
ghost use Rattle.slots.specs.Links.{Beside};
ghost use Rattle.image.specs.Tables.{Tables, tables_of, program, Ready};
ghost use Rattle.patterns.specs.Targets.{stands_at, form_in};
ghost use Rattle.attempts.specs.Standing.{Standing};
ghost use Rattle.targets.specs.Aimed.{AimIs, AimsIn};

use crate::Aims;
use crate::aims::aim_at;
use asm::{judge_linked, start_state};
use instruction::tables::is_transfer;
use listing::Starts;
use patterns::targets::form_at;
use rules::Place;
use slots::State;

// Of a transfer, and zeros of any other statement.
fn aim_or_zeros(
    frames: &[u8],
    state: &State,
    count: usize,
    links: &[u16; 28672],
    values: &[i64; 1024],
    positions: &[u32; 1025],
    at: Place,
) -> [u8; 8]
    requires { let d : Tables = tables_of frames.now state.now count links.now values.now positions.now in
        Ready d × (at.0 < count) }
    ensures { let d : Tables = tables_of frames.now state.now count links.now values.now
        positions.now in
        (is_transfer (form_in (stands_at d.slots at.0)) ≡ true → AimIs (program d) at.0 result) }
{
    if is_transfer(form_at(frames, state, count, at)) {
        return aim_at(frames, state, count, links, values, positions, at);
    }
    [0u8; 8]
}

fn fill_aims(
    frames: &[u8],
    state: &State,
    count: usize,
    links: &[u16; 28672],
    values: &[i64; 1024],
    positions: &[u32; 1025],
    aims: &mut Aims,
)
    requires { let d : Tables = tables_of frames.now state.now count links.now values.now positions.now in
        Ready d × (length aims.old ≡ 1024) }
    ensures { let d : Tables = tables_of frames.now state.now count links.now values.now
        positions.now in
        AimsIn (program d) count aims.new }
{
    for i in 0..count {
        aims[i] = aim_or_zeros(frames, state, count, links, values, positions, Place(i));
    }
}

// Positions and values are found once more: the program assembles.
pub fn find_aims(frames: &[u8], state: &State, count: usize, links: &[u16; 28672], aims: &mut Aims)
    requires { let t : Slots = table_of frames.now state.now count in
        Standing t × (assembles (program_of t) ≡ true) × Beside frames.now (starts_in state.now) count links.now
        × (length aims.old ≡ 1024) }
    ensures { let t : Slots = table_of frames.now state.now count in
        AimsIn (program_of t) count aims.new }
{
    let mut positions = [0u32; 1025];
    let mut values = [0i64; 1024];
    if judge_linked(frames, state, count, links, &mut positions, &mut values).is_ok() {
        fill_aims(frames, state, count, links, &values, &positions, aims);
    }
}

// What reading found, from the rows of a state: no rewrite changes them.
fn stripes(state: &State) -> Starts
    ensures { result ≡ starts_in state.now }
{
    let mut starts = [0u16; 4100];
    for (k, x) in starts.iter_mut().enumerate() {
        *x = state[k / 1025][k % 1025];
    }
    starts
}

// Of the listing as it was read, which assembles.
pub fn find_aims_read(
    frames: &[u8],
    state: &State,
    count: usize,
    links: &[u16; 28672],
    aims: &mut Aims,
)
    requires { let starts : List ℕ = starts_in state.now in
        Held frames.now starts count × (assembles (input_of frames.now starts count) ≡ true)
        × Beside frames.now starts count links.now × (length aims.old ≡ 1024) }
    ensures { AimsIn (input_of frames.now (starts_in state.now) count) count aims.new }
{
    let starts = stripes(state);
    let first = start_state(&starts, count);
    find_aims(frames, &first, count, links, aims);
}
