// An end form is assembled, and its image is held against the shipped one.
ghost use Rattle.std.specs.Prelude.{◌≡◌, true, Ok};
ghost use Rattle.rules.specs.Judging.{assembles};
ghost use Rattle.rules.specs.Layout.{origin_from};
ghost use Rattle.listing.specs.Tables.{Held};
ghost use Rattle.env.specs.Tables.{Any};
ghost use Rattle.slots.specs.Slots.{Slots, program_of, Positioned};
ghost use Rattle.slots.specs.State.{starts_in, forms_in, table_of};
ghost use Rattle.slots.specs.Links.{Beside};
ghost use Rattle.image.specs.Tables.{Tables, tables_of, program};
ghost use Rattle.image.specs.Image.{image_of};
ghost use Rattle.attempts.specs.Standing.{Standing};
ghost use Rattle.finishing.specs.Ending.{Assembled};
ghost use Rattle.audit.specs.Audit.{held};
ghost use Rattle.audit.specs.Held.{finding_as, end_image};

use crate::Finding;
use crate::comparing::count_alike;
use asm::{judge_linked, origin_of};
use image::{image_length, write_image};
use rules::{Address, Refusal};
use slots::State;

// The finding on two images. `positions` are those of the slots, in which the wanted one's bytes have their origins.
fn hold(
    frames: &[u8],
    state: &State,
    count: usize,
    positions: &[u32; 1025],
    wanted: &[u8],
    shipped: &[u8],
) -> Finding
    requires { Held frames.now (starts_in state.now) count
        × Any frames.now (starts_in state.now) count (forms_in state.now) (λ t. Positioned t positions.now) }
    ensures { Any frames.now (starts_in state.now) count (forms_in state.now)
        (λ t. result ≡ finding_as (held (origin_from 0 0 (program_of t)) wanted.now shipped.now)) }
{
    let a = count_alike(wanted, shipped);
    if a < wanted.len() {
        let origin = origin_of(frames, state, count, positions, Address(a));
        if a < shipped.len() {
            return Finding::Differs(Address(a), wanted[a], shipped[a], origin);
        }
        return Finding::Short(Address(a), origin);
    }
    if a < shipped.len() {
        return Finding::Long(Address(a));
    }
    Finding::Same
}

// Writes the image of slots that were judged good.
fn hold_judged(
    frames: &[u8],
    state: &State,
    count: usize,
    links: &[u16; 28672],
    values: &[i64; 1024],
    positions: &[u32; 1025],
    shipped: &[u8],
) -> Finding
    requires { let d : Tables = tables_of frames.now state.now count
        links.now values.now positions.now in
        Assembled d }
    ensures { let d : Tables = tables_of frames.now state.now count links.now values.now
        positions.now in
        result ≡ finding_as (held (origin_from 0 0 (program d)) (image_of d) shipped.now) }
{
    let mut image = [0u8; 65536];
    let n = image_length(frames, state, count, positions);
    write_image(frames, state, count, links, values, positions, &mut image);
    hold(frames, state, count, positions, &image[..n], shipped)
}

// Positions and values of an end form are found once more: it assembles.
pub fn hold_end(
    frames: &[u8],
    state: &State,
    count: usize,
    links: &[u16; 28672],
    shipped: &[u8],
) -> Result<Finding, Refusal>
    requires { let t : Slots = table_of frames.now state.now count in
        Standing t × (assembles (program_of t) ≡ true) × Beside frames.now (starts_in state.now) count links.now }
    ensures { let t : Slots = table_of frames.now state.now count in
        result ≡ Ok (finding_as (held (origin_from 0 0 (program_of t)) (end_image (program_of t)) shipped.now)) }
{
    let mut positions = [0u32; 1025];
    let mut values = [0i64; 1024];
    judge_linked(frames, state, count, links, &mut positions, &mut values)?;
    Ok(hold_judged(frames, state, count, links, &values, &positions, shipped))
}
