// The addresses of a program in slots, by place: it assembles, so that each has one.
ghost use Rattle.std.specs.Prelude.{◌≡◌, true, length};
ghost use Rattle.rules.specs.Judging.{assembles};
ghost use Rattle.slots.specs.Slots.{Slots, program_of};
ghost use Rattle.slots.specs.State.{starts_in, table_of};
ghost use Rattle.slots.specs.Links.{Beside};
ghost use Rattle.attempts.specs.Standing.{Standing};
ghost use Rattle.mapping.specs.Entry.{Addressed};

use asm::judge_linked;
use slots::State;

pub fn find_positions(
    frames: &[u8],
    state: &State,
    count: usize,
    links: &[u16; 28672],
    positions: &mut [u32; 1025],
)
    requires { let t : Slots = table_of frames.now state.now count in
        Standing t × (assembles (program_of t) ≡ true) × Beside frames.now (starts_in state.now) count links.now
        × (length positions.old ≡ 1025) }
    ensures { Addressed (program_of (table_of frames.now state.now count)) count positions.new }
{
    let mut values = [0i64; 1024];
    // good, since the program assembles: its positions are what is wanted
    let _ = judge_linked(frames, state, count, links, positions, &mut values);
}
