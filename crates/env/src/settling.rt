// Positions and values in one pass. Of a candidate it is asked only whether it assembles: which of 4 to 7 comes first does not matter.
ghost use Rattle.std.specs.Prelude.{◌≡◌, length};
ghost use Rattle.listing.specs.Tables.{Held};
ghost use Rattle.slots.specs.Links.{contexts_read, Beside};
ghost use Rattle.env.specs.Tables.{Any, InContext};
ghost use Rattle.env.specs.Settling.{Settled};
ghost use Rattle.slots.specs.State.{starts_in, forms_in};

use crate::layout::advance;
use crate::variables::value_at;
use rules::{Address, Place};
use slots::State;

// Fills the position of each place, of the end behind them, and what each place's name stands for, up to the first statement that does not
// settle or has no value.
pub fn settle_all(
    frames: &[u8],
    state: &State,
    count: usize,
    links: &[u16],
    positions: &mut [u32; 1025],
    values: &mut [i64; 1024],
) -> bool
    requires held { Held frames.now (starts_in state.now) count × (length positions.old ≡ 1025) × (length values.old ≡ 1024)
        × Beside frames.now (starts_in state.now) count links.now }
    requires any { Any frames.now (starts_in state.now) count (forms_in state.now) (λ t. InContext t
        (contexts_read frames.now (starts_in state.now) count)) }
    ensures { Any frames.now (starts_in state.now) count (forms_in state.now)
        (λ t. Settled t result positions.new values.new) }
{
    positions[0] = 0;
    for i in 0..count {
        let here = Address(positions[i] as usize);
        let Ok(next) = advance(frames, state, count, Place(i), here) else {
            return false;
        };
        positions[i + 1] = next.0 as u32;
        let Ok(z) = value_at(frames, state, count, links, positions, values, Place(i)) else {
            return false;
        };
        values[i] = z;
    }
    true
}
