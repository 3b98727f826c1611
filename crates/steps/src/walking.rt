// Rewrite by rewrite, each told once it is done.
ghost use Rattle.std.specs.Prelude.{◌≡◌, true, ◌≤◌, length};
ghost use Rattle.laws.specs.Lists.{total};
ghost use Rattle.rules.specs.Judging.{assembles};
ghost use Rattle.rules.specs.Rewriting.{instr_bytes};
ghost use Rattle.slots.specs.Slots.{Slots, program_of};
ghost use Rattle.slots.specs.State.{starts_in, table_of};
ghost use Rattle.slots.specs.Links.{Beside};
ghost use Rattle.attempts.specs.Standing.{Standing};
ghost use Rattle.digits.specs.Digits.{laid};
ghost use Rattle.steps.specs.Steps.{steps_in, step_lines};

use crate::lines::put_change;
use optimize::rewrite;
use rules::Settings;
use slots::State;

// Rewrites until no rewrite remains, and writes a line for each.
pub fn write_steps(
    asked: Settings,
    frames: &[u8],
    state: &mut State,
    count: usize,
    links: &[u16; 28672],
    out: &mut [u8],
)
    requires { let t : Slots = table_of frames.now state.old count in
        Standing t × (assembles (program_of t) ≡ true) × Beside frames.now (starts_in state.old) count links.now
        × (length (step_lines (steps_in asked (total instr_bytes (program_of t)) (program_of t))) ≤ length out.old) }
    ensures { let t : Slots = table_of frames.now state.old count in
        out.new ≡ laid out.old 0 (step_lines (steps_in asked (total instr_bytes (program_of t)) (program_of t))) }
{
    let mut n = 0;
    loop {
        let before = *state;
        if !rewrite(asked, frames, state, count, links) {
            return;
        }
        put_change(frames, &before, state, count, out, 21 * n);
        n += 1;
    }
}
