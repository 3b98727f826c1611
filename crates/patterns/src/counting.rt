// References to a statement: "in instructions, data and variables", the links to its place.
ghost use Rattle.std.specs.Prelude.{◌≡◌, Bool, List, ℕ, ◌*◌, ◌<◌, ◌≤◌, pos, length, get_or, take, drop};
ghost use Rattle.laws.specs.Counts.{sum_to};
ghost use Rattle.laws.specs.Lists.{total};
ghost use Rattle.rules.specs.Expressions.{Expr, num, mentions, read_expr, got};
ghost use Rattle.rules.specs.Forms.{operands_at};
ghost use Rattle.rules.specs.Programs.{register, args_of, in_operand, over_exprs, kind_of};
ghost use Rattle.expression.specs.Naming.{Referred};
ghost use Rattle.listing.specs.Tables.{frame_at, Noted, Held};
ghost use Rattle.slots.specs.Slots.{slots, slot_at, target_of, InstrIn, DataIn, Sound};
ghost use Rattle.patterns.specs.Targets.{TargetIn};
ghost use Rattle.patterns.specs.Mentions.{read_as, items_of, Short, Refers, RefersAll};
ghost use Rattle.slots.specs.State.{starts_in, forms_in, carry_in, owners_in};

use crate::targets::{target_in, target_links};
use expression::count_links;
use instruction::tables::{is_transfer, operand_count};
use rules::{Place, Statement};
use slots::{
    NO_OWNER, Slot, State, argument_at, carry_at, form_in, frame_at, is_register, item_in,
    links_at, owner_at, slot_at,
};

// In the target that was written at a place; one that became an inner label holds no name. A frame has at most 120 bytes, so no more names
// than that.
fn in_target(
    frames: &[u8],
    state: &State,
    count: usize,
    links: &[u16; 28672],
    at: Place,
    place: Place,
) -> usize
    requires { Held frames.now (starts_in state.now) count × TargetIn frames.now (starts_in state.now) count at.0 × (length
        links.now ≡ 28672) }
    ensures few { result ≤ 120 }
    ensures by_index { (f : ℕ → Bool) → Referred f (frame_at frames.now (starts_in state.now) at.0)
        (frame_at links.now (starts_in state.now) at.0) place.0
        → (forms carry offsets : List ℕ) → result ≡ in_operand (mentions f)
        (target_of (slots frames.now (starts_in state.now) count forms carry (owners_in
        state.now) offsets) at.0) }
{
    if owner_at(state, at) < NO_OWNER {
        return 0;
    }
    count_links(
        target_in(frames, state, count, at),
        target_links(frames, state, count, links, at),
        place.0,
    )
}

// In the expression that begins at byte a of a frame.
fn in_part(frame: &[u8], links: &[u16], a: usize, place: Place) -> usize
    requires { (a ≤ length frame.now) × Short frame.now links.now }
    ensures few { result ≤ 120 }
    ensures by_index { (f : ℕ → Bool) → Referred f frame.now links.now place.0
        → (e : Expr) (k : ℕ) → read_expr (drop a frame.now) ≡ got e k → result ≡ mentions f e }
{
    count_links(&frame[a..], &links[a..], place.0)
}

// In argument j of an instruction as it was read, with the links beside it.
fn in_argument(
    frame: &[u8],
    links: &[u16],
    state: &State,
    at: Place,
    j: usize,
    place: Place,
) -> usize
    requires { InstrIn at.0 frame.now × (j < length (operands_at (get_or frame.now 1 0))) × Short frame.now links.now
        × (at.0 < 1024) × Noted (starts_in state.now) at.0 frame.now }
    ensures few { result ≤ 120 }
    ensures by_index { (f : ℕ → Bool) → Referred f frame.now links.now place.0
        → result ≡ in_operand (mentions f) (get_or (args_of (read_as at.0 frame.now)) j (register 0)) }
{
    if is_register(frame[1], j) {
        return 0;
    }
    in_part(frame, links, argument_at(state, at, j), place)
}

// In the first m arguments.
fn in_arguments(
    frame: &[u8],
    links: &[u16],
    state: &State,
    at: Place,
    m: usize,
    place: Place,
) -> usize
    requires { InstrIn at.0 frame.now × (m ≤ length (operands_at (get_or frame.now 1 0))) × Short frame.now links.now
        × (at.0 < 1024) × Noted (starts_in state.now) at.0 frame.now }
    ensures few { result ≤ 120 * m }
    ensures by_index { (f : ℕ → Bool) → Referred f frame.now links.now place.0
        → result ≡ total (in_operand (mentions f)) (take m (args_of (read_as at.0 frame.now))) }
{
    let mut found = 0;
    for j in 0..m {
        found += in_argument(frame, links, state, at, j, place);
    }
    found
}

// In the instruction at a place: a transfer has the target that it carries instead of the one that its frame has.
fn in_instruction(
    frames: &[u8],
    state: &State,
    count: usize,
    links: &[u16; 28672],
    at: Place,
    place: Place,
) -> usize
    requires { (at.0 < count) × (length links.now ≡ 28672) × ((offsets : List ℕ) →
        (let t = slots frames.now (starts_in state.now) count (forms_in state.now) (carry_in state.now) (owners_in
        state.now) offsets in
        Sound t × (kind_of (slot_at t at.0) ≡ 1))) }
    ensures few { result ≤ 2048 }
    ensures by_index { (f : ℕ → Bool) (offsets : List ℕ) →
        (let t = slots frames.now (starts_in state.now) count (forms_in state.now) (carry_in
        state.now)
        (owners_in state.now) offsets in
        Refers f t links.now at.0 place.0 → result ≡ over_exprs (mentions f) (slot_at t at.0)) }
{
    let frame = frame_at(frames, state, count, at);
    let beside = links_at(links, state, at);
    let own = operand_count(frame[1]);
    if is_transfer(form_in(state, at)) {
        let written = carry_at(state, at);
        let carried = in_target(frames, state, count, links, written, place);
        return in_arguments(frame, beside, state, at, own - 1, place) + carried;
    }
    in_arguments(frame, beside, state, at, own, place)
}

// In item j of data.
fn in_item(frame: &[u8], links: &[u16], j: usize, place: Place) -> usize
    requires { ((i : ℕ) × DataIn i frame.now) × (j < get_or frame.now 1 0) × Short frame.now links.now }
    ensures few { result ≤ 120 }
    ensures by_index { (i : ℕ) → DataIn i frame.now
        → (f : ℕ → Bool) → Referred f frame.now links.now place.0
        → result ≡ mentions f (get_or (items_of (read_as i frame.now)) j (num (pos 0))) }
{
    in_part(frame, links, item_in(frame, j), place)
}

// In data of m items.
fn in_items(frame: &[u8], links: &[u16], m: usize, place: Place) -> usize
    requires { ((i : ℕ) × DataIn i frame.now) × (m ≡ get_or frame.now 1 0) × Short frame.now links.now }
    ensures few { result ≤ 2048 }
    ensures by_index { (i : ℕ) → DataIn i frame.now
        → (f : ℕ → Bool) → Referred f frame.now links.now place.0
        → result ≡ over_exprs (mentions f) (read_as i frame.now) }
{
    let mut found = 0;
    for j in 0..m {
        found += in_item(frame, links, j, place);
    }
    found
}

// In the statement at a place.
fn in_statement(
    frames: &[u8],
    state: &State,
    count: usize,
    links: &[u16; 28672],
    at: Place,
    place: Place,
) -> usize
    requires { (at.0 < count) × (length links.now ≡ 28672)
        × ((offsets : List ℕ) → Sound (slots frames.now (starts_in state.now) count (forms_in state.now) (carry_in state.now)
        (owners_in state.now) offsets)) }
    ensures few { result ≤ 2048 }
    ensures by_index { (f : ℕ → Bool) (offsets : List ℕ) →
        (let t = slots frames.now (starts_in state.now) count (forms_in state.now) (carry_in
        state.now)
        (owners_in state.now) offsets in
        Refers f t links.now at.0 place.0 → result ≡ over_exprs (mentions f) (slot_at t at.0)) }
{
    match slot_at(frames, state, count, at) {
        Slot::Gone => 0,
        Slot::Form(_) => in_instruction(frames, state, count, links, at, place),
        Slot::Holds(statement) => {
            let frame = frame_at(frames, state, count, at);
            let beside = links_at(links, state, at);
            match statement {
                Statement::Variable(_, value) => in_part(frame, beside, value.0, place),
                Statement::Bytes(n, _) => in_items(frame, beside, n, place),
                Statement::Words(n, _) => in_items(frame, beside, n, place),
                Statement::Instr(_)
                | Statement::Label(_)
                | Statement::Comment(_)
                | Statement::Org(_)
                | Statement::Pad(_, _) => 0,
            }
        }
    }
}

// How often the statements refer to the one at `place`. There are at most 1,024 statements, and each has at most 16 expressions of its
// frame's 120 bytes: the sum fits.
pub fn references(
    frames: &[u8],
    state: &State,
    count: usize,
    links: &[u16; 28672],
    place: Place,
) -> usize
    requires { (length links.now ≡ 28672)
        × ((offsets : List ℕ) → Sound (slots frames.now (starts_in state.now) count (forms_in state.now) (carry_in state.now)
        (owners_in state.now) offsets)) }
    ensures { (F : ℕ → ℕ → Bool) (offsets : List ℕ) →
        (let t = slots frames.now (starts_in state.now) count (forms_in state.now) (carry_in
        state.now)
        (owners_in state.now) offsets in
        RefersAll F t links.now place.0 → result ≡ sum_to (λ j. over_exprs (mentions (F j)) (slot_at t j)) count) }
{
    let mut found = 0;
    for j in 0..count {
        found += in_statement(frames, state, count, links, Place(j), place);
    }
    found
}
