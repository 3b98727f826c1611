// The lines of the slots, one behind the other: each piece is stored where the one before ended, and its function returns where it ends.
ghost use Rattle.std.specs.Prelude.{◌≡◌, true, List, ◌∷◌, [], ℕ, ◌+◌, ◌*◌, ◌<◌, ◌≤◌, length, get_or};
ghost use Rattle.rules.specs.Expressions.{four};
ghost use Rattle.rules.specs.Forms.{is_transfer};
ghost use Rattle.rules.specs.Listing.{line_bytes};
ghost use Rattle.rules.specs.Output.{mark_of};
ghost use Rattle.rules.specs.Run.{front};
ghost use Rattle.listing.specs.Form.{form_of};
ghost use Rattle.listing.specs.Tables.{Noted, Held};
ghost use Rattle.slots.specs.Slots.{Slots, slots, InstrIn, Sound};
ghost use Rattle.digits.specs.Digits.{hex_of, laid};
ghost use Rattle.output.specs.Digits.{Put};
ghost use Rattle.output.specs.Lines.{line_at, listing_of, beside_in, sourced, own_end, own_bytes, target_bytes, instr_bytes, bytes_at};
ghost use Rattle.output.specs.Lines.{InstrAt, Drawn, NumberLow, Positioned};
ghost use Rattle.slots.specs.State.{starts_in, forms_in, carry_in, owners_in, offsets_in, table_of};

use crate::lines::own_end;
use digits::{put_byte, put_bytes};
use instruction::tables::is_transfer;
use listing::line_bytes;
use rules::Place;
use slots::{
    NO_OWNER, OFFSET, Slot, State, carry_at, form_in, frame_at, is_gone, owner_at, slot_at,
};

// A byte, and the four bytes of a number behind it, high byte first.
fn put_five(out: &mut [u8], at: usize, first: u8, n: u32)
    requires { at + 10 ≤ length out.old }
    ensures { out.new ≡ laid out.old at (hex_of (first ∷ four n)) }
{
    let [n3, n2, n1, n0] = n.to_be_bytes();
    put_bytes(out, at, &[first, n3, n2, n1, n0]);
}

// A plain number: 00 and its four bytes.
fn put_number(out: &mut [u8], at: usize, n: u32)
    requires { at + 10 ≤ length out.old }
    ensures { out.new ≡ laid out.old at (hex_of (0 ∷ four n)) }
{
    put_five(out, at, 0, n);
}

// C-20: the source line n behind the kind, where the listing has the new form.
fn put_source(marked: bool, kind: u8, n: u32, out: &mut [u8], at: usize)
    requires { at + (2 + 2 * line_bytes (form_of marked)) ≤ length out.old }
    ensures { out.new ≡ sourced (form_of marked) kind n out.old at }
{
    if marked {
        put_five(out, at, kind, n);
    }
}

// The target that a place wrote: the number that its inner label stands for, or as it stands there.
fn put_target(
    frames: &[u8],
    state: &State,
    count: usize,
    positions: &[u32; 1025],
    from: Place,
    out: &mut [u8],
    at: usize,
) -> usize
    requires { let target : List ℕ = target_bytes frames.now (starts_in state.now) (owners_in state.now) (offsets_in state.now)
        positions.now from.0 in
        Held frames.now (starts_in state.now) count × InstrAt frames.now (starts_in state.now) count from.0
        × NumberLow (owners_in state.now) positions.now from.0 × (at + 2 * length target ≤ length out.old) }
    ensures { let target : List ℕ = target_bytes frames.now (starts_in state.now) (owners_in state.now)
        (offsets_in state.now) positions.now from.0 in
        Put out.old at target out.new result }
{
    let c = from.0;
    let owner = owner_at(state, from);
    if owner < NO_OWNER {
        put_number(out, at, positions[owner] + u32::from(state[OFFSET][c]));
        return at + 10;
    }
    let frame = frame_at(frames, state, count, from);
    let e = own_end(frame, state, from);
    put_bytes(out, at, &frame[e..]);
    at + 2 * (frame.len() - e)
}

// What is an instruction's own: the kind, its form, and the operands before the target. `place` is the frame's place.
fn put_own(frame: &[u8], state: &State, place: Place, form: u8, out: &mut [u8], at: usize) -> usize
    requires { InstrIn place.0 frame.now × (at + 2 * own_end frame.now ≤ length out.old)
        × (place.0 < 1024) × Noted (starts_in state.now) place.0 frame.now }
    ensures { Put out.old at (own_bytes form frame.now) out.new result }
{
    let e = own_end(frame, state, place);
    put_byte(out, at, 1);
    put_byte(out, at + 2, form);
    put_bytes(out, at + 4, &frame[2..e]);
    at + 2 * e
}

// An instruction: its own bytes, and a transfer's target.
fn put_instruction(
    frames: &[u8],
    state: &State,
    count: usize,
    positions: &[u32; 1025],
    place: Place,
    out: &mut [u8],
    at: usize,
) -> usize
    requires { let t : Slots = table_of frames.now state.now count in
        Drawn frames.now (starts_in state.now) count (forms_in state.now) (carry_in state.now) place.0
        × (is_transfer (get_or (forms_in state.now) place.0 0) ≡ true → NumberLow (owners_in state.now) positions.now (get_or
        (carry_in state.now) place.0 0))
        × (at + 2 * length (instr_bytes t positions.now place.0) ≤ length out.old) }
    ensures { let t : Slots = table_of frames.now state.now count in
        Put out.old at (instr_bytes t positions.now place.0) out.new result }
{
    let form = form_in(state, place);
    let frame = frame_at(frames, state, count, place);
    let end = put_own(frame, state, place, form, out, at);
    if is_transfer(form) {
        let from = carry_at(state, place);
        return put_target(frames, state, count, positions, from, out, end);
    }
    end
}

// A statement that is not gone: an instruction, or the frame as it stands.
fn put_statement(
    frames: &[u8],
    state: &State,
    count: usize,
    positions: &[u32; 1025],
    place: Place,
    out: &mut [u8],
    at: usize,
) -> usize
    requires { let t : Slots = table_of frames.now state.now count in
        Sound t × Positioned t positions.now × (place.0 < count)
        × (at + 2 * length (bytes_at t positions.now place.0) ≤ length out.old) }
    ensures { let t : Slots = table_of frames.now state.now count in
        Put out.old at (bytes_at t positions.now place.0) out.new result }
{
    let Slot::Form(_) = slot_at(frames, state, count, place) else {
        let frame = frame_at(frames, state, count, place);
        put_bytes(out, at, frame);
        return at + 2 * frame.len();
    };
    put_instruction(frames, state, count, positions, place, out, at)
}

fn end_line(out: &mut [u8], at: usize) -> usize
    requires { at < length out.old }
    ensures { (out.new ≡ laid out.old at (10 ∷ [])) × (result ≡ at + 1) }
{
    out[at] = b'\n';
    at + 1
}

// The line of a slot; nothing where it is gone. Its frame is stored behind room for the source line, whose kind byte then covers the frame's own.
fn put_line(
    marked: bool,
    lines: &[u32; 1024],
    frames: &[u8],
    state: &State,
    count: usize,
    positions: &[u32; 1025],
    place: Place,
    out: &mut [u8],
    at: usize,
) -> usize
    requires { let t : Slots = table_of frames.now state.now count in
        Sound t × Positioned t positions.now × (place.0 < count)
        × (at + length (line_at (form_of marked) lines.now t place.0) ≤ length out.old) }
    ensures { let t : Slots = table_of frames.now state.now count in
        (out.new ≡ laid out.old at (line_at (form_of marked) lines.now t place.0))
        × (result ≡ at + length (line_at (form_of marked) lines.now t place.0)) }
{
    let i = place.0;
    if is_gone(state, place) {
        return at;
    }
    let b = line_bytes(marked);
    let end = put_statement(frames, state, count, positions, place, out, at + 2 * b);
    let frame = frame_at(frames, state, count, place);
    put_source(marked, frame[0], lines[i], out, at);
    end_line(out, end)
}

// The line that marks the new form.
fn put_mark(marked: bool, out: &mut [u8]) -> usize
    requires { length (mark_of (form_of marked)) ≤ length out.old }
    ensures { (out.new ≡ laid out.old 0 (mark_of (form_of marked)))
        × (result ≡ length (mark_of (form_of marked))) }
{
    if !marked {
        return 0;
    }
    put_bytes(out, 0, &[0x7D, 0x02]);
    end_line(out, 4)
}

// The text of the program that the tables hold, at the front of the room.
pub fn write_text(
    marked: bool,
    lines: &[u32; 1024],
    frames: &[u8],
    state: &State,
    count: usize,
    positions: &[u32; 1025],
    out: &mut [u8],
)
    requires { let t : Slots = table_of frames.now state.now count in
        Sound t × Positioned t positions.now
        × (length (listing_of (beside_in marked lines.now count) t) ≤ length out.old) }
    ensures { let t : Slots = table_of frames.now state.now count in
        out.new ≡ front (listing_of (beside_in marked lines.now count) t) out.old }
{
    let mut at = put_mark(marked, out);
    for i in 0..count {
        at = put_line(
            marked,
            lines,
            frames,
            state,
            count,
            positions,
            Place(i),
            out,
            at,
        );
    }
}
