// Rule 2: "a target with no name whose value has an origin becomes an inner label", and by C-15 any that "holds no label, directly or
// through variables". It is done once, on the listing as read.
ghost use Rattle.std.specs.Prelude.{◌≡◌, List, ℕ, ◌<◌, pos, length, get_or};
ghost use Rattle.rules.specs.Programs.{args_of, last_of};
ghost use Rattle.rules.specs.Layout.{origin};
ghost use Rattle.rules.specs.Names.{Key, Entry, key_of, lookup};
ghost use Rattle.rules.specs.Rewriting.{moving_of};
ghost use Rattle.rules.specs.Values.{nat};
ghost use Rattle.expression.specs.Environment.{keys_of};
ghost use Rattle.expression.specs.Linked.{Linked};
ghost use Rattle.listing.specs.Tables.{frame_at, input_at, Held};
ghost use Rattle.env.specs.Tables.{Any};
ghost use Rattle.slots.specs.Slots.{Slots, slots, program_of, Positioned};
ghost use Rattle.image.specs.Tables.{Tables, tables_of, program, Ready};
ghost use Rattle.asm.specs.Assembling.{Placed};
ghost use Rattle.patterns.specs.Targets.{TargetIn};
ghost use Rattle.anchors.specs.Anchored.{constant_value, origin_at, owner_in, offset_in, Small, Found, AsRead, Anchored};
ghost use Rattle.slots.specs.State.{starts_in, forms_in, owners_in, offsets_in, table_of, Labelled};

use crate::Label;
use crate::changing::is_change_jump;
use asm::origin_of;
use env::fill_moving;
use expression::{holds_label, linked_worth};
use instruction::tables::is_transfer;
use patterns::targets::{form_at, target_in, target_links};
use rules::{Address, Place, Unvalued};
use slots::{NO_OWNER, State, put_label};

// What the target that was written at a place is worth. "Any target holding a name stays as written": since C-15 one that holds a label, and
// its worth is not asked.
fn target_value(
    frames: &[u8],
    state: &State,
    count: usize,
    contexts: &[u16; 1024],
    links: &[u16; 28672],
    values: &[i64; 1024],
    moving: &[u32; 1024],
    at: Place,
) -> Result<i32, Unvalued>
    requires { Held frames.now (starts_in state.now) count × TargetIn frames.now (starts_in state.now) count at.0 × (length
        links.now ≡ 28672) }
    ensures { let k : ℕ = get_or contexts.now at.0 0 in
        ((names : List Entry)
        → Linked (λ m. lookup names (key_of k m)) (frame_at frames.now (starts_in state.now) at.0)
        (frame_at links.now (starts_in state.now) at.0) values.now count
        → result ≡ constant_value names (keys_of moving.now contexts.now count) k
        (last_of (args_of (input_at frames.now (starts_in state.now) at.0)))) }
{
    let context = contexts[at.0];
    let target = target_in(frames, state, count, at);
    if holds_label(target, moving, contexts, count, context) {
        return Err(Unvalued::Unknown);
    }
    let beside = target_links(frames, state, count, links, at);
    linked_worth(target, beside, values, count)
}

// A number that is not negative, as an address.
fn address(v: i32) -> Address
    requires { v ≡ pos (nat v) }
    ensures { result.0 ≡ nat v }
{
    Address(v as usize)
}

// The origin of a value. `positions` are those of the slots.
pub fn value_origin(
    frames: &[u8],
    state: &State,
    count: usize,
    positions: &[u32; 1025],
    x: Result<i32, Unvalued>,
) -> Option<(Place, usize)>
    requires { Held frames.now (starts_in state.now) count
        × Any frames.now (starts_in state.now) count (forms_in state.now) (λ t. Positioned t positions.now) }
    ensures { Any frames.now (starts_in state.now) count (forms_in state.now)
        (λ t. Found t (origin (program_of t) x) result) }
{
    let Ok(v) = x else {
        return None;
    };
    if v < 0 {
        return None;
    }
    origin_of(frames, state, count, positions, address(v))
}

// The origin that the target at a place becomes an inner label of: "for each of the twenty transfers of `control_flow_target`, unless a change
// jump".
fn origin_at(
    frames: &[u8],
    state: &State,
    count: usize,
    contexts: &[u16; 1024],
    links: &[u16; 28672],
    values: &[i64; 1024],
    positions: &[u32; 1025],
    moving: &[u32; 1024],
    at: Place,
) -> Option<(Place, usize)>
    requires { let d : Tables = tables_of frames.now state.now count
        links.now values.now positions.now in
        Ready d × AsRead d.slots × Placed d.slots contexts.now × (at.0 < count) }
    ensures { let d : Tables = tables_of frames.now state.now count links.now values.now
        positions.now in
        let names : List Key = keys_of moving.now contexts.now count in
        Found d.slots (origin_at d.entries names (program d) at.0) result }
{
    if !is_transfer(form_at(frames, state, count, at))
        || is_change_jump(frames, state, count, links, values, positions, at)
    {
        return None;
    }
    let x = target_value(frames, state, count, contexts, links, values, moving, at);
    value_origin(frames, state, count, positions, x)
}

// An origin's inner label, as the tables hold it.
fn label_of(o: Option<(Place, usize)>) -> Label
    requires { Small o }
    ensures { (result.owner ≡ owner_in o) × (result.offset ≡ offset_in o) }
{
    match o {
        Some((place, offset)) => Label {
            owner: place.0 as u16,
            offset: offset as u16,
        },
        None => Label {
            owner: NO_OWNER as u16,
            offset: 0,
        },
    }
}

// Writes the inner labels that the targets become, at the place that wrote each target, into `next`, a copy of the state. `moving` are the
// names that move.
fn anchor_targets(
    frames: &[u8],
    state: &State,
    count: usize,
    contexts: &[u16; 1024],
    links: &[u16; 28672],
    values: &[i64; 1024],
    positions: &[u32; 1025],
    moving: &[u32; 1024],
    next: &mut State,
)
    requires fact { let d : Tables = tables_of frames.now state.now count links.now values.now positions.now in
        Ready d × AsRead d.slots × Placed d.slots contexts.now }
    requires fact_2 { let t : Slots = table_of frames.now state.now count in
        (length (owners_in state.now) ≡ 1025) × (length (offsets_in state.now) ≡ 1025)
        × (keys_of moving.now contexts.now count ≡ moving_of (program_of t)) × (next.old ≡ state.now) }
    ensures { let t : Slots = table_of frames.now state.now count in
        Anchored t (table_of frames.now next.new count) × Labelled state.now next.new }
{
    for i in 0..count {
        let label = label_of(origin_at(
            frames,
            state,
            count,
            contexts,
            links,
            values,
            positions,
            moving,
            Place(i),
        ));
        put_label(next, Place(i), label.owner, label.offset);
    }
}

// Writes the inner labels that the targets become: owners and offsets, at the place that wrote each target. `next` is a copy of the state of
// the listing as read, which has no inner label.
pub fn anchor(
    frames: &[u8],
    state: &State,
    count: usize,
    contexts: &[u16; 1024],
    links: &[u16; 28672],
    values: &[i64; 1024],
    positions: &[u32; 1025],
    next: &mut State,
)
    requires fact { let d : Tables = tables_of frames.now state.now count links.now values.now positions.now in
        Ready d × AsRead d.slots × Placed d.slots contexts.now }
    requires state_len { (length (owners_in state.now) ≡ 1025) × (length (offsets_in state.now) ≡ 1025) × (next.old ≡ state.now) }
    ensures { let t : Slots = table_of frames.now state.now count in
        Anchored t (table_of frames.now next.new count) × Labelled state.now next.new }
{
    let mut moving = [65536u32; 1024];
    fill_moving(frames, state, count, contexts, &mut moving);
    anchor_targets(
        frames, state, count, contexts, links, values, positions, &moving, next,
    );
}
