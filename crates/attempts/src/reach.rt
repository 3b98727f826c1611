// Shorter forms that cannot reach their target, told before anything is laid out: a target that holds no name is worth the same in every candidate, and
// what stands before a changed place keeps its position.
ghost use Rattle.std.specs.Prelude.{◌≡◌, true, false, List, [], ℕ, ◌+◌, ◌<◌, ℤ, length, get_or, Ok};
ghost use Rattle.rules.specs.declared.Kind.TheVariants.{Reg};
ghost use Rattle.rules.specs.Answers.{is_ok};
ghost use Rattle.rules.specs.Encoding.{field};
ghost use Rattle.rules.specs.Forms.{operands_at, size_at};
ghost use Rattle.listing.specs.Tables.{Held};
ghost use Rattle.slots.specs.Slots.{slots, WroteTarget};
ghost use Rattle.attempts.specs.Reach.{FixedAt, OutOfReach};
ghost use Rattle.slots.specs.State.{starts_in, carry_in, owners_in};

use encoding::operands::field_of;
use expression::linked_worth;
use instruction::tables::{operand_kind, size};
use patterns::targets::{target_in, target_links};
use rules::{Address, Place, Unvalued};
use slots::{CARRY, NO_OWNER, State, owner_at};

// The value of the target that was written at place c, where it is the same whatever names stand for and wherever statements lie: by no place below 0
// is any name known, and so `values` is not looked at.
fn fixed_target(
    frames: &[u8],
    state: &State,
    count: usize,
    links: &[u16; 28672],
    values: &[i64; 1024],
    c: Place,
) -> Result<i32, Unvalued>
    requires { Held frames.now (starts_in state.now) count × WroteTarget (slots frames.now (starts_in state.now) count [] []
        (owners_in state.now) []) c.0
        × (length links.now ≡ 28672) }
    ensures { (z : ℤ) → result ≡ Ok z → (forms carry offsets : List ℕ)
        → FixedAt (slots frames.now (starts_in state.now) count forms carry (owners_in
        state.now) offsets) c.0 z }
{
    if owner_at(state, c) < NO_OWNER {
        return Err(Unvalued::Unknown);
    }
    linked_worth(
        target_in(frames, state, count, c),
        target_links(frames, state, count, links, c),
        values,
        0,
    )
}

// Whether a form at this position refuses the value as its first operand.
fn refuses(at: Place, position: u32, form: u8, v: i32) -> bool
    requires { 0 < length (operands_at form) }
    ensures { result ≡ true → is_ok (field at.0 0 (position + size_at form) (get_or (operands_at form) 0 Reg) v) ≡ false }
{
    let n = position as usize + size(form);
    if 65536 < n {
        return false;
    }
    match operand_kind(form, 0) {
        Some(kind) => field_of(at, 0, Address(n), kind, v).is_err(),
        None => false,
    }
}

// Whether a form whose only operand is its target cannot have the target that the slot carries, from where the slot lies.
pub fn misses(
    frames: &[u8],
    state: &State,
    count: usize,
    links: &[u16; 28672],
    values: &[i64; 1024],
    positions: &[u32; 1025],
    form: u8,
    at: Place,
) -> bool
    requires { Held frames.now (starts_in state.now) count
        × WroteTarget (slots frames.now (starts_in state.now) count [] [] (owners_in state.now) []) (get_or (carry_in state.now)
        at.0 0)
        × (length links.now ≡ 28672) × (0 < length (operands_at form)) × (at.0 < count) }
    ensures { result ≡ true → (forms offsets : List ℕ)
        → OutOfReach (slots frames.now (starts_in state.now) count forms (carry_in state.now) (owners_in
        state.now) offsets)
        (get_or positions.now at.0 0) form at.0 }
{
    let written = Place(usize::from(state[CARRY][at.0]));
    match fixed_target(frames, state, count, links, values, written) {
        Ok(v) => refuses(at, positions[at.0], form, v),
        Err(_) => false,
    }
}
