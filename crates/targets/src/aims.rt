// What the target of a transfer comes to: its value, and the byte at that address.
ghost use Rattle.std.specs.Prelude.{◌≡◌, true, ◌++◌, ◌%◌, ◌<◌};
ghost use Rattle.std.specs.Int.{w32};
ghost use Rattle.std.proofs.Common.{of_z};
ghost use Rattle.rules.specs.Expressions.{pair, four};
ghost use Rattle.rules.specs.Forms.{is_transfer};
ghost use Rattle.image.specs.Tables.{Tables, tables_of, program, Ready};
ghost use Rattle.patterns.specs.Targets.{stands_at, form_in};
ghost use Rattle.anchors.specs.Anchored.{Small, offset_in};
ghost use Rattle.targets.specs.Targets.{number_of};
ghost use Rattle.targets.specs.Aimed.{place_in, AimIs};

use anchors::value_origin;
use image::argument_worth;
use instruction::tables::operand_count;
use output::bits;
use rules::{Place, Unvalued};
use slots::{State, form_in};

// The 32 bits of a value.
fn value_bits(v: Result<i32, Unvalued>) -> u32
    ensures { result ≡ of_z w32 (number_of v) }
{
    v.map_or(0, |z| bits(z))
}

// The place of an origin; FFFF where no statement has the byte.
fn place_of(o: Option<(Place, usize)>) -> u32
    requires { Small o }
    ensures { (result ≡ place_in o) × (result < 65536) }
{
    match o {
        Some((i, _)) => i.0 as u32,
        None => 65535,
    }
}

fn offset_of(o: Option<(Place, usize)>) -> u32
    requires { Small o }
    ensures { (result ≡ offset_in o) × (result < 65536) }
{
    match o {
        Some((_, n)) => n as u32,
        None => 0,
    }
}

// A value in four bytes, a place in two and an offset in two.
fn eight_bytes(value: u32, place: u32, offset: u32) -> [u8; 8]
    requires { (place < 65536) × (offset < 65536) }
    ensures { result ≡ four value ++ (pair place ++ pair offset) }
{
    let [v3, v2, v1, v0] = value.to_be_bytes();
    let [p1, p0] = (place as u16).to_be_bytes();
    let [o1, o0] = (offset as u16).to_be_bytes();
    [v3, v2, v1, v0, p1, p0, o1, o0]
}

// What the target of the transfer at a place comes to. The tables are those of the program in the slots.
pub fn aim_at(
    frames: &[u8],
    state: &State,
    count: usize,
    links: &[u16; 28672],
    values: &[i64; 1024],
    positions: &[u32; 1025],
    at: Place,
) -> [u8; 8]
    requires { let d : Tables = tables_of frames.now state.now count links.now values.now positions.now in
        Ready d × (at.0 < count) × (is_transfer (form_in (stands_at d.slots at.0)) ≡ true) }
    ensures { let d : Tables = tables_of frames.now state.now count links.now values.now
        positions.now in
        AimIs (program d) at.0 result }
{
    let last = operand_count(form_in(state, at)) - 1;
    let worth = argument_worth(frames, state, count, links, values, positions, at, last);
    let byte = value_origin(frames, state, count, positions, worth);
    eight_bytes(value_bits(worth), place_of(byte), offset_of(byte))
}
