// Names, positions and variables, one pass behind the other: "then 3, then 5 and 6, then variables (4, 7)".
ghost use Rattle.std.specs.Prelude.{◌≡◌, [], length, Ok};
ghost use Rattle.rules.specs.Names.{placed};
ghost use Rattle.rules.specs.Judging.{no_name_twice};
ghost use Rattle.listing.specs.Tables.{Held};
ghost use Rattle.slots.specs.Slots.{program_of};
ghost use Rattle.slots.specs.Links.{Beside};
ghost use Rattle.env.specs.Answers.{checked_as};
ghost use Rattle.env.specs.Tables.{Any};
ghost use Rattle.asm.specs.Assembling.{Placed, Whole, InPlace, Once, Prepared};
ghost use Rattle.slots.specs.State.{starts_in, forms_in};

use env::{define_all, fill_links, fill_names, lay_out, no_name_twice};
use rules::Refusal;
use slots::State;

// 3, and where no name is defined twice, the place that each name means. `contexts` are those of the slots, of which none is gone.
pub fn find_names(
    frames: &[u8],
    state: &State,
    count: usize,
    contexts: &[u16; 1024],
    links: &mut [u16; 28672],
) -> Result<(), Refusal>
    requires { Held frames.now (starts_in state.now) count × (length links.old ≡ 28672)
        × Any frames.now (starts_in state.now) count (forms_in state.now) (λ t. Placed t contexts.now × Whole t) }
    ensures any { Any frames.now (starts_in state.now) count (forms_in state.now)
        (λ t. result ≡ checked_as (no_name_twice [] (placed (program_of t)))) }
    ensures beside { result ≡ Ok tt → Beside frames.now (starts_in state.now) count links.new }
    ensures links_len { length links.new ≡ 28672 }
{
    let mut names = [65536u32; 1024];
    fill_names(frames, state, count, &mut names);
    no_name_twice(&names, contexts, count)?;
    fill_links(frames, state, count, &names, contexts, links);
    Ok(())
}

// Fills positions and values, or refuses. `links` are those of the listing as it was read, and no name is defined twice.
pub fn lay_and_define(
    frames: &[u8],
    state: &State,
    count: usize,
    links: &[u16; 28672],
    positions: &mut [u32; 1025],
    values: &mut [i64; 1024],
) -> Result<(), Refusal>
    requires { Held frames.now (starts_in state.now) count × (length positions.old ≡ 1025) × (length values.old ≡ 1024)
        × Beside frames.now (starts_in state.now) count links.now × Any frames.now (starts_in state.now) count (forms_in
        state.now) (λ t. InPlace t) }
    ensures { Any frames.now (starts_in state.now) count (forms_in state.now)
        (λ t. Once t → Prepared t links.now values.new positions.new result) }
{
    lay_out(frames, state, count, positions)?;
    define_all(frames, state, count, links, positions, values)
}
