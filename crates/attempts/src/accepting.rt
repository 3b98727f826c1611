// Rule 5: "A candidate counts only if every inner label's offset is below its owner's size and the whole assembles."
ghost use Rattle.std.specs.Prelude.{◌≡◌, ◌<◌};
ghost use Rattle.rules.specs.Rewriting.{acceptable as Acceptable};
ghost use Rattle.slots.specs.Slots.{Slots, program_of};
ghost use Rattle.slots.specs.Links.{Beside};
ghost use Rattle.attempts.specs.Standing.{Standing};
ghost use Rattle.slots.specs.State.{starts_in, table_of};

use asm::assembles;
use patterns::labels::offsets_fit;
use rules::Place;
use slots::State;

// Whether the program counts as a candidate. `hint` is the place that a rewrite changed: the test looks there first, where most candidates fail.
pub fn acceptable(
    frames: &[u8],
    state: &State,
    count: usize,
    links: &[u16; 28672],
    hint: Place,
) -> bool
    requires { let t : Slots = table_of frames.now state.now count in
        Standing t × (hint.0 < count) × Beside frames.now (starts_in state.now) count links.now }
    ensures { let t : Slots = table_of frames.now state.now count in
        result ≡ Acceptable (program_of t) }
{
    let mut positions = [0u32; 1025];
    assembles(frames, state, count, links, hint, &mut positions)
        && offsets_fit(frames, state, count, &positions)
}
