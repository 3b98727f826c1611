// The bytes of a slot's instruction: its operands one after the other, each its value and then its range before the next.
ghost use Rattle.std.specs.Prelude.{◌≡◌, ◌+◌, ◌<◌, ◌≤◌, length, get_or};
ghost use Rattle.rules.specs.declared.Kind.TheVariants.{Reg};
ghost use Rattle.rules.specs.Forms.{operands_at};
ghost use Rattle.rules.specs.Names.{context_at};
ghost use Rattle.encoding.specs.Operands.{field_as};
ghost use Rattle.rules.specs.Programs.{kind_of};
ghost use Rattle.slots.specs.Slots.{slot_at};
ghost use Rattle.image.specs.Tables.{Tables, tables_of, program, operand_at, Ready};
ghost use Rattle.image.specs.Encoding.{field_of, encode_at, encoded_as};
ghost use Rattle.slots.specs.State.{forms_in};

use crate::worth::{argument_worth, unvalued};
use encoding::encode::encode;
use encoding::operands::field_of;
use instruction::tables::{operand_count, operand_kind, size};
use rules::{Address, Code, Place, Refusal};
use slots::{State, form_in, instr_at};

// The address after an instruction.
fn after(position: u32, size: usize) -> Address
    requires { (position ≤ 65536) × (size ≤ 65536) }
    ensures { result.0 ≡ position + size }
{
    Address(position as usize + size)
}

// What the instruction in a slot, with n the address after it, writes for its argument j.
fn field_at(
    frames: &[u8],
    state: &State,
    count: usize,
    links: &[u16; 28672],
    values: &[i64; 1024],
    positions: &[u32; 1025],
    at: Place,
    j: usize,
    n: Address,
) -> Result<u16, Refusal>
    requires fact { let d : Tables = tables_of frames.now state.now count
        links.now values.now positions.now in
        Ready d × (at.0 < count) × (kind_of (slot_at d.slots at.0) ≡ 1) }
    requires j_in_bounds { (j < length (operands_at (get_or (forms_in state.now) at.0 0))) × (n.0 ≤ 65536) }
    ensures { let d : Tables = tables_of frames.now state.now count links.now values.now
        positions.now in
        result ≡ field_as (field_of d.entries (program d) at.0 (context_at (program d) at.0) n.0 j
        (get_or (operands_at (get_or (forms_in state.now) at.0 0)) j Reg) (operand_at d.slots at.0 j)) }
{
    let Some(kind) = operand_kind(form_in(state, at), j) else {
        return Ok(0); // no argument j: never met
    };
    let v = argument_worth(frames, state, count, links, values, positions, at, j).map_err(
        |why| unvalued(at, why),
    )?;
    field_of(at, j, n, kind, v)
}

// The bytes of the instruction in a slot, or its first refusal.
pub fn encode_at(
    frames: &[u8],
    state: &State,
    count: usize,
    links: &[u16; 28672],
    values: &[i64; 1024],
    positions: &[u32; 1025],
    at: Place,
) -> Result<Code, Refusal>
    requires { let d : Tables = tables_of frames.now state.now count
        links.now values.now positions.now in
        Ready d × (at.0 < count) × (kind_of (slot_at d.slots at.0) ≡ 1) }
    ensures { let d : Tables = tables_of frames.now state.now count links.now values.now
        positions.now in
        result ≡ encoded_as (encode_at d at.0) }
{
    let i = at.0;
    let form = form_in(state, at);
    let n = after(positions[i], size(form));
    let mut fields: [u16; 3] = [0; 3];
    for j in 0..operand_count(form) {
        fields[j] = field_at(frames, state, count, links, values, positions, at, j, n)?;
    }
    Ok(encode(instr_at(state, at), fields[0], fields[1], fields[2]))
}
