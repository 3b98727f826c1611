// The two shapes of a pattern, looked for at a place.
ghost use Rattle.std.specs.Prelude.{◌≡◌, true, ◌&&◌, List, ℕ, ◌<◌};
ghost use Rattle.rules.specs.Forms.{is_transfer};
ghost use Rattle.rules.specs.Rewriting.{no_inner_label_between, no_interior_label_at};
ghost use Rattle.listing.specs.Tables.{Held};
ghost use Rattle.slots.specs.Slots.{Slots, slots, program_of, Sound};
ghost use Rattle.patterns.specs.Mentions.{Told};
ghost use Rattle.patterns.specs.Matches.{JumpAfter, LandingAfter, OpeningIs, InvertedBegins, TrampolineBegins, InvertedIs, TrampolineIs};
ghost use Rattle.slots.specs.State.{starts_in, forms_in, table_of};

use crate::counting::references;
use crate::labels::{no_inner_label_between, no_interior_label_at};
use crate::significance::next;
use crate::targets::{branch_at, local_label_at, names_bare, unconditional_at};
use rules::Place;
use slots::State;

// The unconditional that comes next behind a place.
fn jump_after(frames: &[u8], state: &State, count: usize, at: Place) -> Option<Place>
    requires { Held frames.now (starts_in state.now) count × (at.0 < count) }
    ensures { (carry owners offsets : List ℕ) →
        (let t = slots frames.now (starts_in state.now) count (forms_in state.now) carry owners offsets in
        JumpAfter t at.0 result) }
{
    let jump = next(frames, state, count, Place(at.0 + 1));
    unconditional_at(frames, state, count, jump).then_some(jump)
}

// The local label that comes next behind a place: where it stands, and its name.
fn landing_after(frames: &[u8], state: &State, count: usize, at: Place) -> Option<(Place, u16)>
    requires { Held frames.now (starts_in state.now) count × (at.0 < count) }
    ensures { (carry owners offsets : List ℕ) →
        (let t = slots frames.now (starts_in state.now) count (forms_in state.now) carry owners offsets in
        LandingAfter t at.0 result) }
{
    let label = next(frames, state, count, Place(at.0 + 1));
    let n = local_label_at(frames, state, count, label)?;
    Some((label, n))
}

// What both shapes begin with: a branch, an unconditional, a local label. Where the last two stand, and the label's name. `form` is that of
// the branch.
fn opening_at(
    frames: &[u8],
    state: &State,
    count: usize,
    form: u8,
    at: Place,
) -> Option<(Place, Place, u16)>
    requires { Held frames.now (starts_in state.now) count × (at.0 < count) × (is_transfer form ≡ true) }
    ensures { (carry owners offsets : List ℕ) →
        (let t = slots frames.now (starts_in state.now) count (forms_in state.now) carry owners offsets in
        OpeningIs t form at.0 result) }
{
    if !branch_at(frames, state, count, form, at) {
        return None;
    }
    let jump = jump_after(frames, state, count, at)?;
    let (label, n) = landing_after(frames, state, count, jump)?;
    Some((jump, label, n))
}

// No inner label stands in the way: none between the statements of a pattern, and none inside its branch.
fn is_free(frames: &[u8], state: &State, count: usize, at: Place, m: Place) -> bool
    requires { Sound (table_of frames.now state.now count) }
    ensures { let p = program_of (table_of frames.now state.now count) in
        result ≡ no_inner_label_between p at.0 m.0 && no_interior_label_at p at.0 }
{
    no_inner_label_between(frames, state, count, at, m)
        && no_interior_label_at(frames, state, count, at)
}

// "Inverted: branch, unconditional, local label that the branch names bare": where the last two stand. `from` is the form of the branch; m
// is the place of the label. Inner labels are not looked at.
pub fn inverted_shape(
    frames: &[u8],
    state: &State,
    count: usize,
    links: &[u16; 28672],
    from: u8,
    at: Place,
) -> Option<(Place, Place)>
    requires { let t : Slots = table_of frames.now state.now count in
        Sound t × Told t links.now × (at.0 < count) × (is_transfer from ≡ true) }
    ensures { let t : Slots = table_of frames.now state.now count in
        InvertedBegins t from at.0 result }
{
    let (jump, m, _) = opening_at(frames, state, count, from, at)?;
    names_bare(frames, state, count, links, at, m).then_some((jump, m))
}

// The same, where no inner label stands in the way of the fold.
pub fn inverted_at(
    frames: &[u8],
    state: &State,
    count: usize,
    links: &[u16; 28672],
    from: u8,
    at: Place,
) -> Option<(Place, Place)>
    requires { let t : Slots = table_of frames.now state.now count in
        Sound t × Told t links.now × (at.0 < count) × (is_transfer from ≡ true) }
    ensures { let t : Slots = table_of frames.now state.now count in
        InvertedIs t from at.0 result }
{
    let (jump, m) = inverted_shape(frames, state, count, links, from, at)?;
    is_free(frames, state, count, at, m).then_some((jump, m))
}

// "Trampoline: branch to bare local T, unconditional to bare local S, T, unconditional, S": where the last four stand. `form` is that of
// the branch; t and s are the places of T and S. "T has exactly one reference in the whole listing". Inner labels are not looked at.
pub fn trampoline_shape(
    frames: &[u8],
    state: &State,
    count: usize,
    links: &[u16; 28672],
    form: u8,
    at: Place,
) -> Option<(Place, Place, Place, Place)>
    requires { let t : Slots = table_of frames.now state.now count in
        Sound t × Told t links.now × (at.0 < count) × (is_transfer form ≡ true) }
    ensures { let t : Slots = table_of frames.now state.now count in
        TrampolineBegins t form at.0 result }
{
    let (skip, t, _) = opening_at(frames, state, count, form, at)?;
    let last = jump_after(frames, state, count, t)?;
    let (s, _) = landing_after(frames, state, count, last)?;
    let bare_once = names_bare(frames, state, count, links, at, t)
        && names_bare(frames, state, count, links, skip, s)
        && references(frames, state, count, links, t) == 1;
    bare_once.then_some((skip, t, last, s))
}

// The same, where no inner label stands in the way of the fold.
pub fn trampoline_at(
    frames: &[u8],
    state: &State,
    count: usize,
    links: &[u16; 28672],
    form: u8,
    at: Place,
) -> Option<(Place, Place, Place, Place)>
    requires { let t : Slots = table_of frames.now state.now count in
        Sound t × Told t links.now × (at.0 < count) × (is_transfer form ≡ true) }
    ensures { let t : Slots = table_of frames.now state.now count in
        TrampolineIs t form at.0 result }
{
    let (skip, t, last, s) = trampoline_shape(frames, state, count, links, form, at)?;
    is_free(frames, state, count, at, s).then_some((skip, t, last, s))
}
