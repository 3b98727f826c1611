// What the operands of a slot's instruction are worth: a register, an expression, or an inner label, which is worth its byte's address.
ghost use Rattle.std.specs.Prelude.{◌≡◌, List, [], ℕ, ◌+◌, ◌<◌, ◌≤◌, pos, length, get_or, Err};
ghost use Rattle.rules.specs.Answers.{no};
ghost use Rattle.rules.specs.Forms.{operands_at};
ghost use Rattle.rules.specs.Judging.{value_at};
ghost use Rattle.rules.specs.Names.{Entry, key_of, lookup};
ghost use Rattle.expression.specs.Linked.{Linked};
ghost use Rattle.listing.specs.Tables.{frame_at, Noted};
ghost use Rattle.rules.specs.Programs.{kind_of};
ghost use Rattle.slots.specs.Slots.{slots, slot_at, target_of, worth_in, InstrIn};
ghost use Rattle.image.specs.Tables.{Tables, tables_of, is_target, operand_in, operand_at, Aims, Ready};
ghost use Rattle.slots.specs.State.{starts_in, forms_in, owners_in, offsets_in};

use expression::linked_worth;
use instruction::tables::{control_flow_target, operand_count};
use rules::{Place, Refusal, Unvalued};
use slots::{
    NO_OWNER, OFFSET, State, argument_at, carry_at, form_in, frame_at, is_register, links_at,
    owner_at,
};

// 4 or 7 at a place: a name that nothing defines, or no value.
pub fn unvalued(at: Place, why: Unvalued) -> Refusal
    ensures { value_at at.0 (Err why) ≡ no result }
{
    match why {
        Unvalued::Unknown => Refusal::NoName(at),
        Unvalued::Nothing => Refusal::NoValue(at),
    }
}

// An inner label: the byte at an offset from its owner's position.
fn inner_worth(position: u32, offset: u16) -> i32
    requires { position ≤ 65536 }
    ensures { result ≡ pos (position + offset) }
{
    (position + u32::from(offset)) as i32
}

// Argument j of an instruction's own frame, with the links beside it. `at` is the frame's place.
pub fn own_worth(
    frame: &[u8],
    state: &State,
    at: Place,
    j: usize,
    links: &[u16],
    values: &[i64; 1024],
    count: usize,
) -> Result<i32, Unvalued>
    requires { InstrIn at.0 frame.now × (j < length (operands_at (get_or frame.now 1 0))) × (count ≤ 1024)
        × (length links.now ≡ length frame.now) × (at.0 < count) × Noted (starts_in state.now) at.0 frame.now }
    ensures { (names : List Entry) (k : ℕ)
        → Linked (λ m. lookup names (key_of k m)) frame.now links.now values.now count
        → (positions : List ℕ) → result ≡ worth_in names positions k (operand_in at.0 frame.now j) }
{
    let a = argument_at(state, at, j);
    if is_register(frame[1], j) {
        return Ok(i32::from(frame[a]));
    }
    linked_worth(&frame[a..], &links[a..], values, count)
}

// The target that was written at place c: an inner label that it became, or the last argument of its frame.
pub fn target_worth(
    frames: &[u8],
    state: &State,
    count: usize,
    links: &[u16; 28672],
    values: &[i64; 1024],
    positions: &[u32; 1025],
    c: Place,
) -> Result<i32, Unvalued>
    requires { Aims (slots frames.now (starts_in state.now) count [] [] (owners_in state.now) (offsets_in state.now))
        positions.now c.0
        × (length links.now ≡ 28672) }
    ensures { (names : List Entry) (k : ℕ)
        → Linked (λ m. lookup names (key_of k m)) (frame_at frames.now (starts_in state.now) c.0)
        (frame_at links.now (starts_in state.now) c.0) values.now count
        → (forms carry : List ℕ) → result ≡ worth_in names positions.now k
        (target_of (slots frames.now (starts_in state.now) count forms carry (owners_in state.now)
        (offsets_in state.now))
        c.0) }
{
    let i = c.0;
    let owner = owner_at(state, c);
    if owner < NO_OWNER {
        return Ok(inner_worth(positions[owner], state[OFFSET][i]));
    }
    let frame = frame_at(frames, state, count, c);
    let beside = links_at(links, state, c);
    let last = operand_count(frame[1]) - 1;
    own_worth(frame, state, c, last, beside, values, count)
}

// Argument j of a form is its target.
fn is_target(form: u8, j: usize) -> bool
    ensures { result ≡ is_target form j }
{
    control_flow_target(form) == Some(j)
}

// Argument j of the instruction in a slot. A transfer's last one is the target that the slot carries.
pub fn argument_worth(
    frames: &[u8],
    state: &State,
    count: usize,
    links: &[u16; 28672],
    values: &[i64; 1024],
    positions: &[u32; 1025],
    at: Place,
    j: usize,
) -> Result<i32, Unvalued>
    requires { let d : Tables = tables_of frames.now state.now count
        links.now values.now positions.now in
        Ready d × (at.0 < count) × (kind_of (slot_at d.slots at.0) ≡ 1) × (j < length
        (operands_at (get_or (forms_in state.now) at.0 0))) }
    ensures { let d : Tables = tables_of frames.now state.now count links.now values.now
        positions.now in
        result ≡ worth_in d.entries d.positions (get_or d.contexts at.0 0) (operand_at d.slots at.0 j) }
{
    let form = form_in(state, at);
    if is_target(form, j) {
        let c = carry_at(state, at);
        return target_worth(frames, state, count, links, values, positions, c);
    }
    let frame = frame_at(frames, state, count, at);
    let beside = links_at(links, state, at);
    own_worth(frame, state, at, j, beside, values, count)
}
