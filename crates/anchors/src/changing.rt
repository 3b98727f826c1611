// Rule 1: a `Jmpf` right behind the `Not1` that changes the bank. It is judged on the tables at hand each time.
ghost use Rattle.std.specs.Prelude.{◌≡◌, suc, ◌<◌, ◌≤◌, eqb, get_or};
ghost use Rattle.std.proofs.Math.Option.{some};
ghost use Rattle.rules.specs.Values.{is_number};
ghost use Rattle.rules.specs.Forms.{not1};
ghost use Rattle.rules.specs.Programs.{args_of};
ghost use Rattle.rules.specs.Names.{context_at};
ghost use Rattle.rules.specs.Judging.{worth_of};
ghost use Rattle.rules.specs.Rewriting.{skipped, valued_10d_and_0, changes_at, is_change_jump};
ghost use Rattle.rules.specs.Rewriting.{nearest as nearest_place};
ghost use Rattle.listing.specs.Tables.{Held};
ghost use Rattle.env.specs.Tables.{Any};
ghost use Rattle.slots.specs.Slots.{slot_at, program_of};
ghost use Rattle.image.specs.Tables.{Tables, tables_of, program, Ready};
ghost use Rattle.patterns.specs.Targets.{stands_at, form_in};
ghost use Rattle.anchors.specs.Changes.{nearest_as};
ghost use Rattle.slots.specs.State.{starts_in, forms_in};

use image::argument_worth;
use instruction::tables::{JMPF, NOT1};
use patterns::targets::form_at;
use rules::{Place, Statement, Unvalued};
use slots::{Slot, State, slot_at};

// "labels (inner ones too), variables and comments skipped". A slot that is gone holds no statement.
fn skipped_at(frames: &[u8], state: &State, count: usize, at: Place) -> bool
    requires { Held frames.now (starts_in state.now) count × (at.0 < count) }
    ensures { Any frames.now (starts_in state.now) count (forms_in state.now) (λ t. result ≡ skipped
        (slot_at t at.0)) }
{
    matches!(
        slot_at(frames, state, count, at),
        Slot::Gone
            | Slot::Holds(Statement::Label(_) | Statement::Variable(_, _) | Statement::Comment(_))
    )
}

// The last place below whose statement is not skipped: the one that a change jump is judged by.
fn nearest(frames: &[u8], state: &State, count: usize, at: Place) -> Option<Place>
    requires { Held frames.now (starts_in state.now) count × (at.0 ≤ count) }
    ensures { Any frames.now (starts_in state.now) count (forms_in state.now)
        (λ t. result ≡ nearest_as (nearest_place (program_of t) at.0)) }
{
    for j in (0..at.0).rev() {
        if !skipped_at(frames, state, count, Place(j)) {
            return Some(Place(j));
        }
    }
    None
}

// A value, and equal to n.
fn is_number(x: Result<i32, Unvalued>, n: u16) -> bool
    ensures { result ≡ is_number n x }
{
    matches!(x, Ok(v) if v == i32::from(n))
}

// The statement at j ends where the one at `at` begins.
fn meets(positions: &[u32; 1025], j: Place, at: Place) -> bool
    requires { (j.0 < 1024) × (at.0 < 1024) }
    ensures { result ≡ eqb (get_or positions.now (suc j.0) 0) (get_or positions.now at.0 0) }
{
    positions[j.0 + 1] == positions[at.0]
}

// The `Not1` at j has "operands valued 0x10D and 0".
fn valued_at(
    frames: &[u8],
    state: &State,
    count: usize,
    links: &[u16; 28672],
    values: &[i64; 1024],
    positions: &[u32; 1025],
    j: Place,
) -> bool
    requires { let d : Tables = tables_of frames.now state.now count
        links.now values.now positions.now in
        Ready d × (j.0 < count) × (form_in (stands_at d.slots j.0) ≡ not1) }
    ensures { let d : Tables = tables_of frames.now state.now count links.now values.now
        positions.now in
        result ≡ valued_10d_and_0 (worth_of d.entries (program d) (context_at (program d) j.0)) (args_of (stands_at d.slots j.0)) }
{
    is_number(
        argument_worth(frames, state, count, links, values, positions, j, 0),
        0x10D,
    ) && is_number(
        argument_worth(frames, state, count, links, values, positions, j, 1),
        0,
    )
}

// The statement at j is `Not1` "with operands valued 0x10D and 0, ending where the jump begins".
fn changes_at(
    frames: &[u8],
    state: &State,
    count: usize,
    links: &[u16; 28672],
    values: &[i64; 1024],
    positions: &[u32; 1025],
    at: Place,
    j: Place,
) -> bool
    requires { let d : Tables = tables_of frames.now state.now count
        links.now values.now positions.now in
        Ready d × (at.0 < count) × (j.0 < count) }
    ensures { let d : Tables = tables_of frames.now state.now count links.now values.now
        positions.now in
        result ≡ changes_at d.entries (program d) at.0 (some j.0) }
{
    form_at(frames, state, count, j) == NOT1
        && valued_at(frames, state, count, links, values, positions, j)
        && meets(positions, j, at)
}

// "a `Jmpf` whose nearest earlier statement .. is `Not1` with operands valued 0x10D and 0, ending where the jump begins"
pub fn is_change_jump(
    frames: &[u8],
    state: &State,
    count: usize,
    links: &[u16; 28672],
    values: &[i64; 1024],
    positions: &[u32; 1025],
    at: Place,
) -> bool
    requires { let d : Tables = tables_of frames.now state.now count
        links.now values.now positions.now in
        Ready d × (at.0 < count) }
    ensures { let d : Tables = tables_of frames.now state.now count links.now values.now
        positions.now in
        result ≡ is_change_jump d.entries (program d) at.0 }
{
    if form_at(frames, state, count, at) != JMPF {
        return false;
    }
    match nearest(frames, state, count, at) {
        Some(j) => changes_at(frames, state, count, links, values, positions, at, j),
        None => false,
    }
}
