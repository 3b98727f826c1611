// The verdict on a program in slots: 3 to 11 in document 01's order, or that it assembles.
ghost use Rattle.std.specs.Prelude.{◌≡◌, length, Ok};
ghost use Rattle.env.specs.Tables.{Any};
ghost use Rattle.slots.specs.Slots.{Slots, Sound};
ghost use Rattle.slots.specs.Links.{Beside, Together};
ghost use Rattle.image.specs.Tables.{tables_of};
ghost use Rattle.asm.specs.Assembling.{Placed, Whole, InPlace, Once};
ghost use Rattle.asm.specs.Verdicts.{JudgedAs};
ghost use Rattle.slots.specs.State.{starts_in, forms_in, table_of};

use crate::names::{find_names, lay_and_define};
use image::encode_all;
use rules::Refusal;
use slots::State;

// 5 to 11: no name is defined twice, and `links` are those of the listing as it was read. Where the program assembles, positions and
// values are left filled.
pub fn judge_linked(
    frames: &[u8],
    state: &State,
    count: usize,
    links: &[u16; 28672],
    positions: &mut [u32; 1025],
    values: &mut [i64; 1024],
) -> Result<(), Refusal>
    requires { let t : Slots = table_of frames.now state.now count in
        Sound t × Together t × Once t × Beside frames.now (starts_in state.now) count links.now
        × (length positions.old ≡ 1025) × (length values.old ≡ 1024)
        × Any frames.now (starts_in state.now) count (forms_in state.now) (λ u. InPlace u) }
    ensures { JudgedAs (tables_of frames.now state.now count links.now values.new positions.new) result }
{
    lay_and_define(frames, state, count, links, positions, values)?;
    // "then encoding by statement and argument"
    encode_all(frames, state, count, links, values, positions)
}

// A listing as it was read: it assembles, or the first refusal. `contexts` are those of the slots. Where no name is defined twice, links
// are left filled, and where the program assembles, positions and values.
pub fn judge(
    frames: &[u8],
    state: &State,
    count: usize,
    contexts: &[u16; 1024],
    links: &mut [u16; 28672],
    positions: &mut [u32; 1025],
    values: &mut [i64; 1024],
) -> Result<(), Refusal>
    requires { let t : Slots = table_of frames.now state.now count in
        Sound t × Together t × (length links.old ≡ 28672) × (length positions.old ≡ 1025) × (length values.old ≡ 1024)
        × Any frames.now (starts_in state.now) count (forms_in state.now) (λ u. Placed u contexts.now × Whole u) }
    ensures judged_as { JudgedAs (tables_of frames.now state.now count links.new values.new positions.new) result }
    ensures beside { result ≡ Ok tt → Beside frames.now (starts_in state.now) count links.new }
{
    find_names(frames, state, count, contexts, links)?;
    judge_linked(frames, state, count, links, positions, values)
}
