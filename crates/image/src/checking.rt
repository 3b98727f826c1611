// The encoding pass: whether each statement encodes, in order, and the first that does not.
ghost use Rattle.std.specs.Prelude.{◌≡◌, ◌<◌};
ghost use Rattle.rules.specs.Answers.{is_ok};
ghost use Rattle.image.specs.Tables.{Tables, tables_of, Ready};
ghost use Rattle.image.specs.Encoding.{encode_at, encode_slots, checked_as};

use crate::codes::encode_at;
use crate::data::{Data, check_items};
use rules::{Place, Refusal, Statement};
use slots::{Slot, State, frame_at, links_at, slot_at};

// Whether the statement in a slot encodes: an instruction by its operands, data by their items, any other always.
fn check_at(
    frames: &[u8],
    state: &State,
    count: usize,
    links: &[u16; 28672],
    values: &[i64; 1024],
    positions: &[u32; 1025],
    at: Place,
) -> Result<(), Refusal>
    requires { let d : Tables = tables_of frames.now state.now count
        links.now values.now positions.now in
        Ready d × (at.0 < count) }
    ensures { let d : Tables = tables_of frames.now state.now count links.now values.now
        positions.now in
        result ≡ checked_as (encode_at d at.0) }
{
    match slot_at(frames, state, count, at) {
        Slot::Gone => Ok(()),
        Slot::Form(_) => encode_at(frames, state, count, links, values, positions, at).map(|_| ()),
        Slot::Holds(statement) => {
            let frame = frame_at(frames, state, count, at);
            let beside = links_at(links, state, at);
            match statement {
                Statement::Bytes(n, _) => {
                    check_items(frame, at, Data::Bytes, n, beside, values, count)
                }
                Statement::Words(n, _) => {
                    check_items(frame, at, Data::Words, n, beside, values, count)
                }
                Statement::Instr(_)
                | Statement::Label(_)
                | Statement::Variable(_, _)
                | Statement::Comment(_)
                | Statement::Org(_)
                | Statement::Pad(_, _) => Ok(()),
            }
        }
    }
}

// The same as a test: a candidate looks at the statement that it changed first.
pub fn encodes_at(
    frames: &[u8],
    state: &State,
    count: usize,
    links: &[u16; 28672],
    values: &[i64; 1024],
    positions: &[u32; 1025],
    at: Place,
) -> bool
    requires { let d : Tables = tables_of frames.now state.now count
        links.now values.now positions.now in
        Ready d × (at.0 < count) }
    ensures { let d : Tables = tables_of frames.now state.now count links.now values.now
        positions.now in
        result ≡ is_ok (encode_at d at.0) }
{
    check_at(frames, state, count, links, values, positions, at).is_ok()
}

// All statements in order: 4 and 7 to 11, the first refusal.
pub fn encode_all(
    frames: &[u8],
    state: &State,
    count: usize,
    links: &[u16; 28672],
    values: &[i64; 1024],
    positions: &[u32; 1025],
) -> Result<(), Refusal>
    requires { let d : Tables = tables_of frames.now state.now count
        links.now values.now positions.now in
        Ready d }
    ensures { let d : Tables = tables_of frames.now state.now count links.now values.now
        positions.now in
        result ≡ checked_as (encode_slots d) }
{
    for i in 0..count {
        check_at(frames, state, count, links, values, positions, Place(i))?;
    }
    Ok(())
}
