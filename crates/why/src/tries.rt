// An attempt at a place of an end form: whether it is tried there, and what stands in its way.
ghost use Rattle.std.specs.Prelude.{◌≡◌, true, ◌*◌, ◌<◌, get_or};
ghost use Rattle.rules.specs.Forms.{is_transfer};
ghost use Rattle.rules.specs.Judging.{names_of};
ghost use Rattle.rules.specs.Rewriting.{inverted, trampoline};
ghost use Rattle.slots.specs.Slots.{Slots, program_of, Agree};
ghost use Rattle.slots.specs.State.{starts_in, table_of};
ghost use Rattle.slots.specs.Links.{Beside};
ghost use Rattle.image.specs.Tables.{Tables, tables_of, Ready};
ghost use Rattle.patterns.specs.Order.{pattern_of, Known};
ghost use Rattle.attempts.specs.Standing.{Standing};
ghost use Rattle.staying.specs.Reasons.{reason_in};
ghost use Rattle.why.specs.Tried.{attempted_as, fold_at, shrink_at};

use crate::candidates::{bounced_reason, form_reason, inverted_reason};
use anchors::is_change_jump;
use instruction::tables::{BR, CALL, CALLF, JMP, JMPF};
use patterns::Pattern;
use patterns::labels::{no_inner_label_between, no_interior_label_at};
use patterns::list::pattern;
use patterns::shapes::{inverted_shape, trampoline_shape};
use patterns::targets::branch_at;
use rules::{Place, Settings};
use slots::State;
use staying::Reason;

// "Inverted: branch, unconditional, local label that the branch names bare."
fn try_inverted(
    frames: &[u8],
    state: &State,
    count: usize,
    links: &[u16; 28672],
    from: u8,
    to: u8,
    at: Place,
) -> Option<Reason>
    requires { let t : Slots = table_of frames.now state.now count in
        Standing t × (at.0 < count) × (is_transfer from ≡ true) × Agree to from
        × Beside frames.now (starts_in state.now) count links.now }
    ensures { let t : Slots = table_of frames.now state.now count in
        result ≡ attempted_as (fold_at (program_of t) (inverted from to) at.0) }
{
    let (jump, m) = inverted_shape(frames, state, count, links, from, at)?;
    if !no_inner_label_between(frames, state, count, at, m) {
        return Some(Reason::Between);
    }
    if !no_interior_label_at(frames, state, count, at) {
        return Some(Reason::Inside);
    }
    Some(inverted_reason(frames, state, count, links, to, at, jump))
}

// "Trampoline: branch to bare local T, unconditional to bare local S, T, unconditional, S"
fn try_trampoline(
    frames: &[u8],
    state: &State,
    count: usize,
    links: &[u16; 28672],
    form: u8,
    at: Place,
) -> Option<Reason>
    requires { let t : Slots = table_of frames.now state.now count in
        Standing t × (at.0 < count) × (is_transfer form ≡ true) × Beside frames.now (starts_in state.now) count links.now }
    ensures { let t : Slots = table_of frames.now state.now count in
        result ≡ attempted_as (fold_at (program_of t) (trampoline form) at.0) }
{
    let (skip, t, last, s) = trampoline_shape(frames, state, count, links, form, at)?;
    if !no_inner_label_between(frames, state, count, at, s) {
        return Some(Reason::Between);
    }
    if !no_interior_label_at(frames, state, count, at) {
        return Some(Reason::Inside);
    }
    Some(bounced_reason(frames, state, count, links, form, at, skip, t, last))
}

// A pattern at a place.
fn try_fold(
    frames: &[u8],
    state: &State,
    count: usize,
    links: &[u16; 28672],
    p: Pattern,
    at: Place,
) -> Option<Reason>
    requires { let t : Slots = table_of frames.now state.now count in
        Standing t × Known (pattern_of p) × (at.0 < count) × Beside frames.now (starts_in state.now) count links.now }
    ensures { let t : Slots = table_of frames.now state.now count in
        result ≡ attempted_as (fold_at (program_of t) (pattern_of p) at.0) }
{
    match p {
        Pattern::Inverted(from, to) => try_inverted(frames, state, count, links, from, to, at),
        Pattern::Trampoline(form) => try_trampoline(frames, state, count, links, form, at),
    }
}

// A shorter form for one that stands at a place. `positions` and `values` are those of the slots.
fn try_shorter(
    frames: &[u8],
    state: &State,
    count: usize,
    links: &[u16; 28672],
    values: &[i64; 1024],
    positions: &[u32; 1025],
    form: u8,
    long: u8,
    at: Place,
) -> Option<Reason>
    requires { let d : Tables = tables_of frames.now state.now count links.now values.now positions.now in
        Standing d.slots × Ready d × Beside frames.now (starts_in state.now) count links.now × (at.0 < count)
        × (is_transfer long ≡ true) × Agree form long }
    ensures { let t : Slots = table_of frames.now state.now count in
        result ≡ attempted_as (shrink_at (names_of (program_of t)) (program_of t) form long at.0) }
{
    if !branch_at(frames, state, count, long, at) {
        return None;
    }
    if is_change_jump(frames, state, count, links, values, positions, at) {
        return Some(Reason::Change);
    }
    if !no_interior_label_at(frames, state, count, at) {
        return Some(Reason::Inside);
    }
    Some(form_reason(frames, state, count, links, form, at))
}

// Try m of a program: attempt m % 26 at place m / 26; why it is not done there, if it is tried. What is switched off is not tried.
pub fn attempted(
    asked: Settings,
    frames: &[u8],
    state: &State,
    count: usize,
    links: &[u16; 28672],
    values: &[i64; 1024],
    positions: &[u32; 1025],
    m: usize,
) -> Option<Reason>
    requires { let d : Tables = tables_of frames.now state.now count links.now values.now positions.now in
        Standing d.slots × Ready d × Beside frames.now (starts_in state.now) count links.now × (m < 26 * count) }
    ensures { let t : Slots = table_of frames.now state.now count in
        result ≡ attempted_as (reason_in asked (program_of t) m) }
{
    let k = m % 26;
    let at = Place(m / 26);
    if k < 23 {
        if !asked.folds {
            return None;
        }
        return try_fold(frames, state, count, links, pattern(k), at);
    }
    if k == 23 {
        return try_shorter(frames, state, count, links, values, positions, BR, JMPF, at);
    }
    if k == 24 {
        return try_shorter(
            frames, state, count, links, values, positions, JMP, JMPF, at,
        );
    }
    if !asked.callf {
        return None;
    }
    try_shorter(
        frames, state, count, links, values, positions, CALL, CALLF, at,
    )
}
