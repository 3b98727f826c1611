// What a pattern asks of one statement: its form, its name, and whether its target is a bare name.
ghost use Rattle.std.specs.Prelude.{◌≡◌, true, List, ℕ, ◌<◌, eqb, length, get_or};
ghost use Rattle.expression.specs.Naming.{Referred};
ghost use Rattle.laws.specs.Options.{is_some};
ghost use Rattle.rules.specs.Forms.{is_transfer};
ghost use Rattle.rules.specs.Rewriting.{branch, unconditional, local_label, bare_in, names_bare};
ghost use Rattle.listing.specs.Tables.{frame_at, Held};
ghost use Rattle.rules.specs.Programs.{kind_of};
ghost use Rattle.slots.specs.Slots.{slots, slot_at, target_of, Sound};
ghost use Rattle.patterns.specs.Targets.{stands_at, form_in, instr_at, label_as, TargetIn, last_bytes, last_links};
ghost use Rattle.slots.specs.State.{starts_in, forms_in, carry_in, owners_in};

use expression::is_bare;
use instruction::tables::{is_unconditional, operand_count};
use rules::{Place, Statement};
use slots::{
    GONE, NO_OWNER, Slot, State, argument_at, carry_at, frame_at, links_at, owner_at, slot_at,
};

// The form of the instruction at a place; GONE where none stands.
pub fn form_at(frames: &[u8], state: &State, count: usize, at: Place) -> u8
    requires { Held frames.now (starts_in state.now) count }
    ensures { (carry owners offsets : List ℕ) →
        (let t = slots frames.now (starts_in state.now) count (forms_in state.now) carry owners offsets in
        result ≡ form_in (stands_at t at.0)) }
{
    let i = at.0;
    if count <= i {
        return GONE;
    }
    let Slot::Form(form) = slot_at(frames, state, count, at) else {
        return GONE;
    };
    form
}

pub fn branch_at(frames: &[u8], state: &State, count: usize, form: u8, at: Place) -> bool
    requires { Held frames.now (starts_in state.now) count × (form < 70) }
    ensures { (carry owners offsets : List ℕ) →
        (let t = slots frames.now (starts_in state.now) count (forms_in state.now) carry owners offsets in
        result ≡ is_some (branch form (stands_at t at.0))) }
{
    form_at(frames, state, count, at) == form
}

pub fn unconditional_at(frames: &[u8], state: &State, count: usize, at: Place) -> bool
    requires { Held frames.now (starts_in state.now) count }
    ensures { (carry owners offsets : List ℕ) →
        (let t = slots frames.now (starts_in state.now) count (forms_in state.now) carry owners offsets in
        result ≡ is_some (unconditional (stands_at t at.0))) }
{
    is_unconditional(form_at(frames, state, count, at))
}

// The name of the label at a place, if it is local.
pub fn local_label_at(frames: &[u8], state: &State, count: usize, at: Place) -> Option<u16>
    requires { Held frames.now (starts_in state.now) count }
    ensures { (carry owners offsets : List ℕ) →
        (let t = slots frames.now (starts_in state.now) count (forms_in state.now) carry owners offsets in
        result ≡ label_as (local_label (stands_at t at.0))) }
{
    let i = at.0;
    if count <= i {
        return None;
    }
    let Slot::Holds(statement) = slot_at(frames, state, count, at) else {
        return None;
    };
    let Statement::Label(name) = statement else {
        return None;
    };
    if name < 0x8000 {
        return None;
    }
    Some(name)
}

// The bytes of a transfer's frame from its target on.
pub fn target_in<'a>(frames: &'a [u8], state: &State, count: usize, at: Place) -> &'a [u8]
    requires { Held frames.now (starts_in state.now) count × TargetIn frames.now (starts_in state.now) count at.0 }
    ensures { result.now ≡ last_bytes (frame_at frames.now (starts_in state.now) at.0) }
{
    let frame = frame_at(frames, state, count, at);
    let a = argument_at(state, at, operand_count(frame[1]) - 1);
    &frame[a..]
}

// The links beside them.
pub fn target_links<'a>(
    frames: &[u8],
    state: &State,
    count: usize,
    links: &'a [u16],
    at: Place,
) -> &'a [u16]
    requires { Held frames.now (starts_in state.now) count × TargetIn frames.now (starts_in state.now) count at.0 × (length
        links.now ≡ 28672) }
    ensures { result.now ≡ last_links (frame_at frames.now (starts_in state.now) at.0)
        (frame_at links.now (starts_in state.now) at.0) }
{
    let frame = frame_at(frames, state, count, at);
    let beside = links_at(links, state, at);
    let a = argument_at(state, at, operand_count(frame[1]) - 1);
    &beside[a..]
}

// The target that was written at a place is one name, which the statement at `place` defines. One that became an inner label is not.
fn is_bare_target(
    frames: &[u8],
    state: &State,
    count: usize,
    links: &[u16; 28672],
    at: Place,
    place: Place,
) -> bool
    requires { Held frames.now (starts_in state.now) count × TargetIn frames.now (starts_in state.now) count at.0 × (length
        links.now ≡ 28672) }
    ensures { (n : ℕ) → Referred (λ m. eqb m n) (frame_at frames.now (starts_in state.now) at.0)
        (frame_at links.now (starts_in state.now) at.0) place.0 → (forms carry offsets : List ℕ)
        → (let t = slots frames.now (starts_in state.now) count forms carry (owners_in state.now) offsets in
        result ≡ bare_in n (target_of t at.0)) }
{
    if owner_at(state, at) < NO_OWNER {
        return false;
    }
    is_bare(
        target_in(frames, state, count, at),
        target_links(frames, state, count, links, at),
        place.0,
    )
}

// The target that the transfer at a place carries is one name, which the statement at `place` defines.
pub fn names_bare(
    frames: &[u8],
    state: &State,
    count: usize,
    links: &[u16; 28672],
    at: Place,
    place: Place,
) -> bool
    requires { Held frames.now (starts_in state.now) count × (at.0 < count)
        × TargetIn frames.now (starts_in state.now) count (get_or (carry_in state.now) at.0 0) × (length links.now ≡ 28672) }
    ensures { let c = get_or (carry_in state.now) at.0 0 in
        (n : ℕ) → Referred (λ m. eqb m n) (frame_at frames.now (starts_in state.now) c)
        (frame_at links.now (starts_in state.now) c) place.0 → (forms offsets : List ℕ) →
        (let t = slots frames.now (starts_in state.now) count forms (carry_in state.now) (owners_in
        state.now) offsets in
        Sound t → kind_of (slot_at t at.0) ≡ 1 → is_transfer (get_or forms at.0 0) ≡ true
        → result ≡ names_bare n (instr_at t at.0)) }
{
    let written = carry_at(state, at);
    is_bare_target(frames, state, count, links, written, place)
}
