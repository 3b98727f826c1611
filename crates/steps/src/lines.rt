// A rewrite as a line: 76, the rule, the place, and what stood there and stands there now, by form and carried place.
ghost use Rattle.std.specs.Prelude.{◌≡◌, ◌+◌, ◌%◌, ◌≤◌, ◌<◌, length};
ghost use Rattle.listing.specs.Tables.{Held};
ghost use Rattle.slots.specs.Slots.{program_of};
ghost use Rattle.slots.specs.State.{starts_in, table_of};
ghost use Rattle.digits.specs.Digits.{laid};
ghost use Rattle.steps.specs.Steps.{rule_of, rule_byte, rewrite_at, rewrite_of, step_line};

use crate::Seat;
use crate::seats::{first_change, seat_at};
use digits::{low_byte, put_line};
use instruction::tables::{CALLF, JMPF};
use rules::Place;
use slots::State;

// 1 an inverted fold, 2 a trampoline, 3 a shrink.
#[tactic(auto, unfolding(crate::specs::Steps::rule_of))]
fn rule_byte(old: u8, new: u8) -> u8
    ensures { result ≡ rule_byte (rule_of old new) }
{
    if old == new {
        2
    } else if matches!(old, JMPF | CALLF) {
        3
    } else {
        1
    }
}

// The line of a rewrite: 21 characters, from `at` on.
fn put_step(out: &mut [u8], at: usize, place: Place, old: Seat, new: Seat)
    requires { (at + 21 ≤ length out.old) × (place.0 < 65536) }
    ensures { out.new ≡ laid out.old at (step_line (rewrite_at place.0 old new)) }
{
    let i = place.0;
    let a = usize::from(old.carried);
    let b = usize::from(new.carried);
    let bytes = [
        0x76,
        rule_byte(old.form, new.form),
        low_byte(i / 256),
        low_byte(i),
        old.form,
        low_byte(a / 256),
        low_byte(a),
        new.form,
        low_byte(b / 256),
        low_byte(b),
    ];
    put_line(out, at, &bytes);
}

// The line of the rewrite that led from the state before to this one.
pub fn put_change(
    frames: &[u8],
    before: &State,
    state: &State,
    count: usize,
    out: &mut [u8],
    at: usize,
)
    requires { Held frames.now (starts_in before.now) count × Held frames.now (starts_in state.now) count
        × (at + 21 ≤ length out.old) }
    ensures { let t = table_of frames.now before.now count in
        let u = table_of frames.now state.now count in
        out.new ≡ laid out.old at (step_line (rewrite_of (program_of t) (program_of u))) }
{
    let place = first_change(frames, before, state, count);
    let old = seat_at(frames, before, count, place);
    let new = seat_at(frames, state, count, place);
    put_step(out, at, place, old, new);
}
