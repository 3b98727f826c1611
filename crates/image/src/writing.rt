// The image: how long it is, and its bytes in a lent room. Gaps are zero, and room beyond it is left as it was.
ghost use Rattle.std.specs.Prelude.{◌≡◌, true, List, ◌++◌, ℕ, ◌+◌, ◌*◌, ◌<◌, ◌≤◌, ◌%◌, ◌/◌, ℤ, length, get_or, drop, replicate};
ghost use Rattle.rules.specs.Answers.{ok, is_ok};
ghost use Rattle.rules.specs.Judging.{items};
ghost use Rattle.rules.specs.Names.{Entry, key_of, lookup};
ghost use Rattle.expression.specs.Linked.{Linked};
ghost use Rattle.encoding.specs.Encode.{bytes_of_code};
ghost use Rattle.listing.specs.Tables.{Held};
ghost use Rattle.slots.specs.Slots.{DataIn};
ghost use Rattle.image.specs.Tables.{Tables, tables, tables_of, Ready};
ghost use Rattle.image.specs.Encoding.{encode_at, encode_slots, items_in, bound_of, write_of};
ghost use Rattle.image.specs.Image.{image_of, put, width_of, size_of};
ghost use Rattle.slots.specs.State.{starts_in, forms_in};

use crate::codes::encode_at;
use crate::data::{Data, item_field};
use rules::{Address, Code, Place, Statement};
use slots::{Slot, State, frame_at, links_at, size_at, slot_at};

// A position is the address of a byte.
fn address(position: u32) -> Address
    ensures { result.0 ≡ position }
{
    Address(position as usize)
}

// The end of the last statement that has bytes; 0 where none has.
pub fn image_length(frames: &[u8], state: &State, count: usize, positions: &[u32; 1025]) -> usize
    requires { Held frames.now (starts_in state.now) count }
    ensures { (carry owners offsets links : List ℕ) (values : List ℤ) →
        (let d = tables frames.now (starts_in state.now) count (forms_in
        state.now) carry owners offsets links values
        positions.now in Ready d → is_ok (encode_slots d) ≡ true → result ≡ length (image_of d)) }
{
    for i in (0..count).rev() {
        let q = address(positions[i]);
        if 0 < size_at(frames, state, count, Place(i), q) {
            return address(positions[i + 1]).0;
        }
    }
    0
}

// Zeros in the n bytes from q on. Where there is none, q may lie behind the room.
fn clear(image: &mut [u8], q: Address, n: usize)
    requires { 0 < n → q.0 + n ≤ length image.old }
    ensures { image.new ≡ put image.old q.0 (replicate n 0) }
{
    if 0 < n {
        image[q.0..q.0 + n].fill(0);
    }
}

// The bytes of an instruction, from q on.
fn write_code(image: &mut [u8], q: Address, code: Code)
    requires { (code.len ≤ 3) × (0 < code.len → q.0 + code.len ≤ length image.old) }
    ensures { image.new ≡ put image.old q.0 (bytes_of_code code) }
{
    let bytes = [code.b0, code.b1, code.b2];
    let n = code.len;
    // without bytes q may lie behind the room
    if 0 < n {
        image[q.0..q.0 + n].copy_from_slice(&bytes[..n]);
    }
}

// How many bytes an item of data has.
fn item_width(what: Data) -> usize
    ensures { result ≡ width_of what }
{
    match what {
        Data::Bytes => 1,
        Data::Words => 2,
    }
}

// An item of data at q. Words have the low byte first.
fn write_item(image: &mut [u8], q: Address, what: Data, v: u16)
    requires { (q.0 + width_of what ≤ length image.old) × (v < bound_of what) }
    ensures { image.new ≡ put image.old q.0 (write_of what v) }
{
    let from = q.0;
    match what {
        Data::Bytes => image[from] = v as u8,
        Data::Words => image[from..from + 2].copy_from_slice(&v.to_le_bytes()),
    }
}

// The n items of the data in a frame, with the links beside it, from q on.
fn write_items(
    frame: &[u8],
    at: Place,
    what: Data,
    n: usize,
    links: &[u16],
    values: &[i64; 1024],
    count: usize,
    q: Address,
    image: &mut [u8],
)
    requires { DataIn at.0 frame.now × (n ≡ get_or frame.now 1 0) × (count ≤ 1024) × (length links.now ≡ length frame.now)
        × (q.0 + width_of what * n ≤ length image.old) }
    ensures { (names : List Entry) (k : ℕ)
        → Linked (λ m. lookup names (key_of k m)) frame.now links.now values.now count
        → (b : List ℕ) → items names (bound_of what) (write_of what) at.0 k 0 (items_in at.0 frame.now) ≡ ok b
        → image.new ≡ put image.old q.0 b }
{
    let width = item_width(what);
    for j in 0..n {
        let Ok(v) = item_field(frame, at, what, j, links, values, count) else {
            return;
        };
        write_item(image, Address(q.0 + width * j), what, v);
    }
}

// The bytes of the statement in a slot, at its position. Zeros, if any, where it is neither an instruction nor data: a pad has them.
fn write_at(
    frames: &[u8],
    state: &State,
    count: usize,
    links: &[u16; 28672],
    values: &[i64; 1024],
    positions: &[u32; 1025],
    at: Place,
    image: &mut [u8],
)
    requires { let d = tables_of frames.now state.now count
        links.now values.now positions.now in
        Ready d × (at.0 < count) × (0 < size_of d at.0 → get_or positions.now at.0 0 + size_of d at.0 ≤ length image.old) }
    ensures { let d : Tables = tables_of frames.now state.now count links.now values.now
        positions.now in
        ((b : List ℕ) → encode_at d at.0 ≡ ok b
        → image.new ≡ put image.old (get_or positions.now at.0 0) b) }
{
    let i = at.0;
    let q = address(positions[i]);
    match slot_at(frames, state, count, at) {
        Slot::Gone => {} // no bytes
        Slot::Form(_) => {
            let Ok(code) = encode_at(frames, state, count, links, values, positions, at) else {
                return;
            };
            write_code(image, q, code);
        }
        Slot::Holds(statement) => {
            let frame = frame_at(frames, state, count, at);
            let beside = links_at(links, state, at);
            match statement {
                Statement::Bytes(n, _) => {
                    write_items(frame, at, Data::Bytes, n, beside, values, count, q, image);
                }
                Statement::Words(n, _) => {
                    write_items(frame, at, Data::Words, n, beside, values, count, q, image);
                }
                Statement::Instr(_)
                | Statement::Label(_)
                | Statement::Variable(_, _)
                | Statement::Comment(_)
                | Statement::Org(_)
                | Statement::Pad(_, _) => {
                    clear(image, q, size_at(frames, state, count, at, q));
                }
            }
        }
    }
}

// The image of slots that encode, in a room that holds it. From the last statement to the first: what follows is always in place.
pub fn write_image(
    frames: &[u8],
    state: &State,
    count: usize,
    links: &[u16; 28672],
    values: &[i64; 1024],
    positions: &[u32; 1025],
    image: &mut [u8],
)
    requires { let d : Tables = tables_of frames.now state.now count
        links.now values.now positions.now in
        Ready d × (is_ok (encode_slots d) ≡ true) × (length (image_of d) ≤ length image.old) }
    ensures { let d : Tables = tables_of frames.now state.now count links.now values.now
        positions.now in
        (let bytes = image_of d in image.new ≡ bytes ++ drop (length bytes) image.old) }
{
    let n = image_length(frames, state, count, positions);
    clear(image, Address(0), n);
    for i in (0..count).rev() {
        write_at(
            frames,
            state,
            count,
            links,
            values,
            positions,
            Place(i),
            image,
        );
    }
}
