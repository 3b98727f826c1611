// Folds: "An inverted fold puts, in the branch's place, the pair's other branch to the unconditional's target, drops the unconditional and
// keeps the label. A trampoline fold puts there the same branch to the last unconditional's target, drops both unconditionals and T, and keeps S."
ghost use Rattle.std.specs.Prelude.{◌≡◌, true, ℕ, ◌<◌, length, set};
ghost use Rattle.rules.specs.Forms.{is_transfer};
ghost use Rattle.rules.specs.Rewriting.{candidate, inverted_at, trampoline_at};
ghost use Rattle.slots.specs.Slots.{Slots, program_of, Agree};
ghost use Rattle.slots.specs.Links.{Beside};
ghost use Rattle.attempts.specs.Standing.{Standing, Tried};
ghost use Rattle.attempts.specs.Folds.{inverted, bounced, Inverts, Bounces};
ghost use Rattle.slots.specs.State.{starts_in, forms_in, carry_in, table_of, Kept};

use crate::accepting::acceptable;
use patterns::shapes::{inverted_at, trampoline_at};
use rules::Place;
use slots::{CARRY, GONE, State, form_in, put_carry, put_form};

// Forms at two places, and the place whose target the first carries.
pub fn put_two(state: &mut State, at: Place, form: u8, from: u16, jump: Place, left: u8)
    requires { (length (forms_in state.old) ≡ 1025) × (length (carry_in state.old) ≡ 1025) × (at.0 < 1024) × (jump.0 < 1024) }
    ensures { (forms_in state.new ≡ set (set (forms_in state.old) at.0 form) jump.0 left)
        × (carry_in state.new ≡ set (carry_in state.old) at.0 from) × Kept state.old state.new }
{
    put_form(state, at, form);
    put_form(state, jump, left);
    put_carry(state, at, from);
}

// Forms at three places.
pub fn put_three(state: &mut State, skip: Place, a: u8, target: Place, b: u8, last: Place, c: u8)
    requires { (length (forms_in state.old) ≡ 1025) × (skip.0 < 1024) × (target.0 < 1024) × (last.0 < 1024) }
    ensures { (forms_in state.new ≡ set (set (set (forms_in state.old) skip.0 a) target.0 b) last.0 c)
        × (carry_in state.new ≡ carry_in state.old) × Kept state.old state.new }
{
    put_form(state, skip, a);
    put_form(state, target, b);
    put_form(state, last, c);
}

// The branch at `at` takes the form `to` and the target of the unconditional at `jump`, which is dropped; undone if the candidate does not count.
fn attempt_inverted(
    frames: &[u8],
    state: &mut State,
    count: usize,
    links: &[u16; 28672],
    to: u8,
    at: Place,
    jump: Place,
) -> bool
    requires { let t : Slots = table_of frames.now state.old count in
        Standing t × Inverts t to at.0 jump.0 × Beside frames.now (starts_in state.old) count links.now }
    ensures { let t : Slots = table_of frames.now state.old count in
        let u : Slots = table_of frames.now state.new count in
        Tried (candidate (inverted t to at.0 jump.0)) t u result }
{
    let i = at.0;
    let j = jump.0;
    let form = form_in(state, at);
    let jumped = form_in(state, jump);
    let own = state[CARRY][i];
    let from = state[CARRY][j];
    put_two(state, at, to, from, jump, GONE);
    if acceptable(frames, state, count, links, at) {
        return true;
    }
    put_two(state, at, form, own, jump, jumped);
    false
}

// The branch at `at` takes the target of the unconditional at `last`; both unconditionals and T are dropped; undone if the candidate does not count.
fn attempt_trampoline(
    frames: &[u8],
    state: &mut State,
    count: usize,
    links: &[u16; 28672],
    at: Place,
    skip: Place,
    target: Place,
    last: Place,
) -> bool
    requires { let t : Slots = table_of frames.now state.old count in
        Standing t × ((f : ℕ) × Bounces t f at.0 skip.0 target.0 last.0)
        × Beside frames.now (starts_in state.old) count links.now }
    ensures { let t : Slots = table_of frames.now state.old count in
        let u : Slots = table_of frames.now state.new count in
        ((f : ℕ) → Bounces t f at.0 skip.0 target.0 last.0
        → Tried (candidate (bounced t f at.0 skip.0 target.0 last.0)) t u result) }
{
    let i = at.0;
    let c = last.0;
    let skipped = form_in(state, skip);
    let label = form_in(state, target);
    let jumped = form_in(state, last);
    let own = state[CARRY][i];
    let from = state[CARRY][c];
    put_three(state, skip, GONE, target, GONE, last, GONE);
    put_carry(state, at, from);
    if acceptable(frames, state, count, links, at) {
        return true;
    }
    put_three(state, skip, skipped, target, label, last, jumped);
    put_carry(state, at, own);
    false
}

// The inverted fold at a place, if the pattern stands there and the candidate counts.
pub fn try_inverted(
    frames: &[u8],
    state: &mut State,
    count: usize,
    links: &[u16; 28672],
    from: u8,
    to: u8,
    at: Place,
) -> bool
    requires { let t : Slots = table_of frames.now state.old count in
        Standing t × (at.0 < count) × (is_transfer from ≡ true) × Agree to from × Beside frames.now (starts_in state.old) count
        links.now }
    ensures { let t : Slots = table_of frames.now state.old count in
        let u : Slots = table_of frames.now state.new count in
        Tried (inverted_at from to (program_of t) at.0) t u result }
{
    let Some((jump, _)) = inverted_at(frames, state, count, links, from, at) else {
        return false;
    };
    attempt_inverted(frames, state, count, links, to, at, jump)
}

// The trampoline fold at a place, if the pattern stands there and the candidate counts.
pub fn try_trampoline(
    frames: &[u8],
    state: &mut State,
    count: usize,
    links: &[u16; 28672],
    form: u8,
    at: Place,
) -> bool
    requires { let t : Slots = table_of frames.now state.old count in
        Standing t × (at.0 < count) × (is_transfer form ≡ true) × Beside frames.now (starts_in state.old) count links.now }
    ensures { let t : Slots = table_of frames.now state.old count in
        let u : Slots = table_of frames.now state.new count in
        Tried (trampoline_at form (program_of t) at.0) t u result }
{
    let Some((skip, target, last, _)) = trampoline_at(frames, state, count, links, form, at) else {
        return false;
    };
    attempt_trampoline(frames, state, count, links, at, skip, target, last)
}
