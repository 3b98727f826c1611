// A row: whether the statement is kept, whether it is data, and where its bytes begin and end in the long image and in the short one.
ghost use Rattle.std.specs.Prelude.{◌≡◌, ◌∷◌, ◌++◌, [], not, ◌<◌};
ghost use Rattle.laws.specs.Lists.{is_one_of};
ghost use Rattle.rules.specs.Expressions.{four};
ghost use Rattle.rules.specs.Programs.{Program, kind_of};
ghost use Rattle.listing.specs.Tables.{Held, input_at, input_of};
ghost use Rattle.slots.specs.Slots.{Slots, program_of};
ghost use Rattle.slots.specs.State.{starts_in, table_of};
ghost use Rattle.mapping.specs.Rows.{row_at, head_byte, data_byte, row_bytes};
ghost use Rattle.mapping.specs.Entry.{Addressed};

use rules::Place;
use slots::{State, frame_at, is_gone};

// The kind of the statement at a place, as it was read: its frame's first byte.
fn kind_read(frames: &[u8], state: &State, count: usize, i: Place) -> u8
    requires { Held frames.now (starts_in state.now) count × (i.0 < count) }
    ensures { result ≡ kind_of (input_at frames.now (starts_in state.now) i.0) }
{
    let frame = frame_at(frames, state, count, i);
    frame[0]
}

// An instruction or data: what has a row.
pub fn has_row(frames: &[u8], state: &State, count: usize, i: Place) -> bool
    requires { Held frames.now (starts_in state.now) count × (i.0 < count) }
    ensures { result ≡ is_one_of (1 ∷ 6 ∷ 7 ∷ []) (kind_of (input_at frames.now (starts_in state.now) i.0)) }
{
    matches!(kind_read(frames, state, count, i), 1 | 6 | 7)
}

// 78 for what is kept, 79 for what was dropped.
fn head_byte(gone: bool) -> u8
    ensures { result ≡ head_byte (not gone) }
{
    if gone { 0x79 } else { 0x78 }
}

// 00 for an instruction, 01 for data.
fn data_byte(kind: u8) -> u8
    ensures { result ≡ data_byte (is_one_of (6 ∷ 7 ∷ []) kind) }
{
    match kind {
        6 | 7 => 1,
        _ => 0,
    }
}

// The two bytes and four addresses, each in four bytes.
fn row_bytes(head: u8, sort: u8, a: u32, b: u32, c: u32, d: u32) -> [u8; 18]
    ensures { result ≡ head ∷ sort ∷ (four a ++ (four b ++ (four c ++ four d))) }
{
    let [a3, a2, a1, a0] = a.to_be_bytes();
    let [b3, b2, b1, b0] = b.to_be_bytes();
    let [c3, c2, c1, c0] = c.to_be_bytes();
    let [d3, d2, d1, d0] = d.to_be_bytes();
    [
        head, sort, a3, a2, a1, a0, b3, b2, b1, b0, c3, c2, c1, c0, d3, d2, d1, d0,
    ]
}

// The row of the statement at a place. `before` has the addresses of the listing as it was read, `after` those of the slots.
pub fn row_at(
    frames: &[u8],
    state: &State,
    count: usize,
    before: &[u32; 1025],
    after: &[u32; 1025],
    i: Place,
) -> [u8; 18]
    requires { let t : Slots = table_of frames.now state.now count in
        Held frames.now (starts_in state.now) count × (i.0 < count) × Addressed (program_of t) count after.now
        × Addressed (input_of frames.now (starts_in state.now) count) count before.now }
    ensures { let t : Slots = table_of frames.now state.now count in
        let p : Program = input_of frames.now (starts_in state.now) count in
        result ≡ row_bytes (row_at p (program_of t) i.0) }
{
    let n = i.0;
    let head = head_byte(is_gone(state, i));
    let sort = data_byte(kind_read(frames, state, count, i));
    row_bytes(head, sort, before[n], before[n + 1], after[n], after[n + 1])
}
