// Shrinks: "first place first: Jmpf not a change jump tries Br, then Jmp; Callf tries Call", if that is asked for.
ghost use Rattle.std.specs.Prelude.{◌≡◌, true, ◌<◌, get_or};
ghost use Rattle.laws.specs.Options.{or_else};
ghost use Rattle.rules.specs.declared.Settings.{Settings as Switches};
ghost use Rattle.rules.specs.Forms.{jmpf, br, jmp};
ghost use Rattle.rules.specs.Judging.{names_of, assembles};
ghost use Rattle.rules.specs.Rewriting.{shrink_at, anywhere};
ghost use Rattle.rules.specs.Programs.{kind_of};
ghost use Rattle.slots.specs.Slots.{Slots, slot_at, program_of, Positioned};
ghost use Rattle.slots.specs.Links.{Beside};
ghost use Rattle.image.specs.Tables.{Tables, tables_of, Ready};
ghost use Rattle.attempts.specs.Standing.{Standing, Tried};
ghost use Rattle.attempts.specs.Deepest.{Deepest};
ghost use Rattle.attempts.specs.Shrinks.{shrunk};
ghost use Rattle.slots.specs.State.{starts_in, forms_in, carry_in, owners_in, offsets_in, table_of};

use anchors::is_change_jump;
use asm::lay_and_define;
use attempts::{fill_deepest, try_form};
use instruction::tables::{BR, CALL, CALLF, JMP, JMPF};
use rules::{Place, Settings};
use slots::{Slot, State, slot_at};

// "tries Br, then Jmp"
fn try_br_then_jmp(
    frames: &[u8],
    state: &mut State,
    count: usize,
    links: &[u16; 28672],
    values: &[i64; 1024],
    positions: &[u32; 1025],
    deepest: &[u32; 1024],
    at: Place,
) -> bool
    requires { let t : Slots = table_of frames.now state.old count in
        Standing t × Deepest t deepest.now × (at.0 < count) × (kind_of (slot_at t at.0) ≡ 1) × (get_or (forms_in state.old)
        at.0 0 ≡ jmpf)
        × Beside frames.now (starts_in state.old) count links.now × Positioned t positions.now }
    ensures { let t : Slots = table_of frames.now state.old count in
        let u : Slots = table_of frames.now state.new count in
        Tried (or_else (shrunk t at.0 br) (shrunk t at.0 jmp)) t u result }
{
    try_form(
        frames, state, count, links, values, positions, deepest, BR, at,
    ) || try_form(
        frames, state, count, links, values, positions, deepest, JMP, at,
    )
}

// "Jmpf not a change jump"
fn shrink_jump(
    frames: &[u8],
    state: &mut State,
    count: usize,
    links: &[u16; 28672],
    values: &[i64; 1024],
    positions: &[u32; 1025],
    deepest: &[u32; 1024],
    at: Place,
) -> bool
    requires { let d : Tables = tables_of frames.now state.old count
        links.now values.now positions.now in
        Standing d.slots × Deepest d.slots deepest.now × Ready d
        × Beside frames.now (starts_in state.old) count links.now × (at.0 < count) × (kind_of (slot_at d.slots at.0) ≡ 1)
        × (get_or (forms_in state.old) at.0 0 ≡ jmpf) }
    ensures { let t : Slots = table_of frames.now state.old count in
        let u : Slots = table_of frames.now state.new count in
        ((asked : Switches) → Tried (shrink_at asked (names_of (program_of t)) (program_of t) at.0) t u result) }
{
    !is_change_jump(frames, state, count, links, values, positions, at)
        && try_br_then_jmp(frames, state, count, links, values, positions, deepest, at)
}

// The shorter forms of the instruction at a place.
fn shrink_at(
    asked: Settings,
    frames: &[u8],
    state: &mut State,
    count: usize,
    links: &[u16; 28672],
    values: &[i64; 1024],
    positions: &[u32; 1025],
    deepest: &[u32; 1024],
    at: Place,
) -> bool
    requires { let d : Tables = tables_of frames.now state.old count
        links.now values.now positions.now in
        Standing d.slots × Deepest d.slots deepest.now × Ready d
        × Beside frames.now (starts_in state.old) count links.now × (at.0 < count) }
    ensures { let t : Slots = table_of frames.now state.old count in
        let u : Slots = table_of frames.now state.new count in
        Tried (shrink_at asked (names_of (program_of t)) (program_of t) at.0) t u result }
{
    let Slot::Form(form) = slot_at(frames, state, count, at) else {
        return false;
    };
    match form {
        JMPF => shrink_jump(frames, state, count, links, values, positions, deepest, at),
        CALLF => asked.callf
            && try_form(
                frames, state, count, links, values, positions, deepest, CALL, at,
            ),
        _ => false,
    }
}

// The shorter forms at the first place where one counts.
fn shrink_first(
    asked: Settings,
    frames: &[u8],
    state: &mut State,
    count: usize,
    links: &[u16; 28672],
    values: &[i64; 1024],
    positions: &[u32; 1025],
    deepest: &[u32; 1024],
) -> bool
    requires { let d : Tables = tables_of frames.now state.old count
        links.now values.now positions.now in
        Standing d.slots × Deepest d.slots deepest.now × Ready d × Beside frames.now (starts_in state.old) count
        links.now }
    ensures { let t : Slots = table_of frames.now state.old count in
        let u : Slots = table_of frames.now state.new count in
        Tried (anywhere (shrink_at asked (names_of (program_of t)) (program_of t)) (program_of t)) t u result }
{
    for i in 0..count {
        if shrink_at(
            asked,
            frames,
            state,
            count,
            links,
            values,
            positions,
            deepest,
            Place(i),
        ) {
            return true;
        }
    }
    false
}

// What the names of a program that assembles stand for is found once, and how deep its inner labels reach: no shrink counts until one is done.
pub fn shrink(
    asked: Settings,
    frames: &[u8],
    state: &mut State,
    count: usize,
    links: &[u16; 28672],
) -> bool
    requires { let t : Slots = table_of frames.now state.old count in
        Standing t × (assembles (program_of t) ≡ true) × Beside frames.now (starts_in state.old) count links.now }
    ensures { let t : Slots = table_of frames.now state.old count in
        let u : Slots = table_of frames.now state.new count in
        Tried (anywhere (shrink_at asked (names_of (program_of t)) (program_of t)) (program_of t)) t u result }
{
    let mut positions = [0u32; 1025];
    let mut values = [0i64; 1024];
    let mut deepest = [0u32; 1024];
    fill_deepest(frames, state, count, &mut deepest);
    lay_and_define(frames, state, count, links, &mut positions, &mut values).is_ok()
        && shrink_first(
            asked, frames, state, count, links, &values, &positions, &deepest,
        )
}
