// One edit in a copy of the state, and why what it leaves is no candidate that counts.
ghost use Rattle.std.specs.Prelude.{◌≡◌, ◌<◌, get_or, set};
ghost use Rattle.rules.specs.Programs.{kind_of, instr, args_of};
ghost use Rattle.slots.specs.Slots.{Slots, slot_at, program_of, Agree};
ghost use Rattle.slots.specs.State.{starts_in, forms_in, carry_in, table_of};
ghost use Rattle.slots.specs.Links.{Beside};
ghost use Rattle.attempts.specs.Standing.{Standing};
ghost use Rattle.attempts.specs.Folds.{inverted, bounced, Inverts, Bounces};
ghost use Rattle.staying.specs.Reasons.{reason_of};

use asm::judge_linked;
use attempts::{put_three, put_two};
use patterns::labels::offsets_fit;
use rules::Place;
use slots::{CARRY, GONE, State, put_carry, put_form};
use staying::Reason;

// "A candidate counts only if every inner label's offset is below its owner's size and the whole assembles": the refusal comes first.
fn reason_of(frames: &[u8], state: &State, count: usize, links: &[u16; 28672]) -> Reason
    requires { let t : Slots = table_of frames.now state.now count in
        Standing t × Beside frames.now (starts_in state.now) count links.now }
    ensures { let t : Slots = table_of frames.now state.now count in
        result ≡ reason_of (program_of t) }
{
    let mut positions = [0u32; 1025];
    let mut values = [0i64; 1024];
    if let Err(r) = judge_linked(frames, state, count, links, &mut positions, &mut values) {
        return Reason::Refused(r);
    }
    if offsets_fit(frames, state, count, &positions) {
        return Reason::Counts;
    }
    Reason::Beyond
}

// A form in the place of the instruction there.
pub fn form_reason(
    frames: &[u8],
    state: &State,
    count: usize,
    links: &[u16; 28672],
    form: u8,
    at: Place,
) -> Reason
    requires { let t : Slots = table_of frames.now state.now count in
        Standing t × (at.0 < count) × (kind_of (slot_at t at.0) ≡ 1) × Agree form (get_or (forms_in state.now) at.0 0)
        × Beside frames.now (starts_in state.now) count links.now }
    ensures { let t : Slots = table_of frames.now state.now count in
        let carried = get_or (carry_in state.now) at.0 0 in
        result ≡ reason_of (set (program_of t) at.0 (instr form (args_of (slot_at t at.0)) carried)) }
{
    let mut tried = *state;
    put_form(&mut tried, at, form);
    reason_of(frames, &tried, count, links)
}

// The branch at `at` with the form `to` and the target of the unconditional at `jump`, which is dropped.
pub fn inverted_reason(
    frames: &[u8],
    state: &State,
    count: usize,
    links: &[u16; 28672],
    to: u8,
    at: Place,
    jump: Place,
) -> Reason
    requires { let t : Slots = table_of frames.now state.now count in
        Standing t × Inverts t to at.0 jump.0 × Beside frames.now (starts_in state.now) count links.now }
    ensures { let t : Slots = table_of frames.now state.now count in
        result ≡ reason_of (inverted t to at.0 jump.0) }
{
    let j = jump.0;
    let from = state[CARRY][j];
    let mut tried = *state;
    put_two(&mut tried, at, to, from, jump, GONE);
    reason_of(frames, &tried, count, links)
}

// The branch at `at` with the target of the unconditional at `last`; both unconditionals and T are dropped.
pub fn bounced_reason(
    frames: &[u8],
    state: &State,
    count: usize,
    links: &[u16; 28672],
    form: u8,
    at: Place,
    skip: Place,
    target: Place,
    last: Place,
) -> Reason
    requires { let t : Slots = table_of frames.now state.now count in
        Standing t × Bounces t form at.0 skip.0 target.0 last.0
        × Beside frames.now (starts_in state.now) count links.now }
    ensures { let t : Slots = table_of frames.now state.now count in
        result ≡ reason_of (bounced t form at.0 skip.0 target.0 last.0) }
{
    let c = last.0;
    let from = state[CARRY][c];
    let mut tried = *state;
    put_three(&mut tried, skip, GONE, target, GONE, last, GONE);
    put_carry(&mut tried, at, from);
    reason_of(frames, &tried, count, links)
}
