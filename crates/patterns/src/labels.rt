// Inner labels: the one that a target is, and tests of all of them.
ghost use Rattle.std.specs.Prelude.{◌≡◌, ◌&&◌, not, ◌<◌, eqb, leb, ltb};
ghost use Rattle.rules.specs.Layout.{size_in};
ghost use Rattle.rules.specs.Rewriting.{every_inner_label, no_inner_label_between, no_interior_label_at};
ghost use Rattle.slots.specs.Slots.{program_of, Positioned, Sound};
ghost use Rattle.patterns.specs.Labels.{label_at, of_label, OwnerIn};
ghost use Rattle.slots.specs.State.{table_of};

use crate::targets::form_at;
use instruction::tables::is_transfer;
use rules::{Address, Place};
use slots::{NO_OWNER, State, carry_at, offset_at, owner_at, size_at};

// The inner label that the target of the transfer in a slot became: its owner's place, and its offset.
pub fn inner_label_at(
    frames: &[u8],
    state: &State,
    count: usize,
    at: Place,
) -> Option<(Place, usize)>
    requires { Sound (table_of frames.now state.now count) × (at.0 < count) }
    ensures { let t = table_of frames.now state.now count in
        (result ≡ label_at t at.0) × OwnerIn count result }
{
    if !is_transfer(form_at(frames, state, count, at)) {
        return None;
    }
    let written = carry_at(state, at);
    let owner = owner_at(state, written);
    if owner < NO_OWNER {
        return Some((Place(owner), offset_at(state, written)));
    }
    None
}

// Not right before an owner from i + 1 to m.
fn is_outside(label: Option<(Place, usize)>, i: Place, m: Place) -> bool
    ensures { result ≡ of_label (λ owner o. not (ltb i.0 owner && leb owner m.0)) label }
{
    label.is_none_or(|(owner, _)| !(i.0 < owner.0 && owner.0 <= m.0))
}

// No inner label stands behind place i and before place m.
pub fn no_inner_label_between(
    frames: &[u8],
    state: &State,
    count: usize,
    i: Place,
    m: Place,
) -> bool
    requires { Sound (table_of frames.now state.now count) }
    ensures { let p = program_of (table_of frames.now state.now count) in
        result ≡ no_inner_label_between p i.0 m.0 }
{
    (0..count).all(|j| is_outside(inner_label_at(frames, state, count, Place(j)), i, m))
}

// Not of offset 1 or more in the run right before place i.
fn is_not_interior(label: Option<(Place, usize)>, i: Place) -> bool
    ensures { result ≡ of_label (λ owner o. not (eqb owner i.0 && leb 1 o)) label }
{
    label.is_none_or(|(owner, offset)| !(owner.0 == i.0 && 1 <= offset))
}

// "A replaced instruction may have no inner label with offset 1 or more in the run right before it."
pub fn no_interior_label_at(frames: &[u8], state: &State, count: usize, at: Place) -> bool
    requires { Sound (table_of frames.now state.now count) }
    ensures { let p = program_of (table_of frames.now state.now count) in
        result ≡ no_interior_label_at p at.0 }
{
    (0..count).all(|j| is_not_interior(inner_label_at(frames, state, count, Place(j)), at))
}

// The offset of a slot's inner label is below the size of its owner, where it comes. `positions` are those of the slots.
fn fits_owner(
    frames: &[u8],
    state: &State,
    count: usize,
    positions: &[u32; 1025],
    at: Place,
) -> bool
    requires { let t = table_of frames.now state.now count in
        Sound t × Positioned t positions.now × (at.0 < count) }
    ensures { let t = table_of frames.now state.now count in
        result ≡ of_label (λ owner o. ltb o (size_in (program_of t) owner)) (label_at t at.0) }
{
    // two steps with the label: a match reads plainer than `is_none_or` over a block
    match inner_label_at(frames, state, count, at) {
        Some((owner, offset)) => {
            let q = Address(positions[owner.0] as usize);
            offset < size_at(frames, state, count, owner, q)
        }
        None => true,
    }
}

// "every inner label's offset is below its owner's size". `positions` are those of the slots.
pub fn offsets_fit(frames: &[u8], state: &State, count: usize, positions: &[u32; 1025]) -> bool
    requires { let t = table_of frames.now state.now count in
        Sound t × Positioned t positions.now }
    ensures { let p = program_of (table_of frames.now state.now count) in
        result ≡ every_inner_label (λ owner o. ltb o (size_in p owner)) p }
{
    (0..count).all(|j| fits_owner(frames, state, count, positions, Place(j)))
}
