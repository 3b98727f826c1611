// Folds: "by pattern, then by place". The first that counts is done.
ghost use Rattle.std.specs.Prelude.{◌≡◌, ◌<◌, ◌≤◌, length, replicate};
ghost use Rattle.laws.specs.Options.{first_of};
ghost use Rattle.rules.specs.Rewriting.{patterns, patterns_for, pattern_at, anywhere};
ghost use Rattle.slots.specs.Slots.{Slots, slots, program_of};
ghost use Rattle.slots.specs.Links.{Beside};
ghost use Rattle.patterns.specs.Order.{pattern_of, Known};
ghost use Rattle.optimize.specs.Branches.{branch_of, Chained};
ghost use Rattle.attempts.specs.Standing.{Standing, Tried};
ghost use Rattle.slots.specs.State.{starts_in, forms_in, carry_in, owners_in, offsets_in, table_of};

use attempts::{try_inverted, try_trampoline};
use patterns::Pattern;
use patterns::list::pattern;
use rules::{Place, Settings};
use slots::{State, form_in};

// The form of the branch that a pattern begins with.
fn branch_of(p: Pattern) -> u8
    ensures { result ≡ branch_of (pattern_of p) }
{
    match p {
        Pattern::Inverted(from, _) => from,
        Pattern::Trampoline(form) => form,
    }
}

// A pattern at a place.
fn try_pattern(
    frames: &[u8],
    state: &mut State,
    count: usize,
    links: &[u16; 28672],
    p: Pattern,
    at: Place,
) -> bool
    requires { let t : Slots = table_of frames.now state.old count in
        Standing t × Known (pattern_of p) × (at.0 < count) × Beside frames.now (starts_in state.old) count links.now }
    ensures { let t : Slots = table_of frames.now state.old count in
        let u : Slots = table_of frames.now state.new count in
        Tried (pattern_at (program_of t) (pattern_of p) at.0) t u result }
{
    match p {
        Pattern::Inverted(from, to) => try_inverted(frames, state, count, links, from, to, at),
        Pattern::Trampoline(form) => try_trampoline(frames, state, count, links, form, at),
    }
}

// Where each form stands first, and behind each place where the form of that place stands next; `count` for nowhere. So a pattern is tried only where
// the form of its branch stands, and all patterns together look at each place once.
fn fill_chains(state: &State, count: usize, first: &mut [u16; 256], after: &mut [u16; 1024])
    requires { (count ≤ 1024) × (first.old ≡ replicate 256 count) × (length after.old ≡ 1024) }
    ensures { Chained (forms_in state.now) count first.new after.new }
{
    for i in (0..count).rev() {
        let form = usize::from(form_in(state, Place(i)));
        after[i] = first[form];
        first[form] = i as u16;
    }
}

// A pattern at the first place where it counts.
fn fold_with(
    frames: &[u8],
    state: &mut State,
    count: usize,
    links: &[u16; 28672],
    first: &[u16; 256],
    after: &[u16; 1024],
    p: Pattern,
) -> bool
    requires { let t : Slots = table_of frames.now state.old count in
        Standing t × Known (pattern_of p) × Beside frames.now (starts_in state.old) count links.now
        × Chained (forms_in state.old) count first.now after.now }
    ensures { let t : Slots = table_of frames.now state.old count in
        let u : Slots = table_of frames.now state.new count in
        Tried (anywhere (pattern_at (program_of t) (pattern_of p)) (program_of t)) t u result }
{
    let form = usize::from(branch_of(p));
    let mut i = usize::from(first[form]);
    // along the places of the branch's form
    while i < count {
        if try_pattern(frames, state, count, links, p, Place(i)) {
            return true;
        }
        i = usize::from(after[i]);
    }
    false
}

// The first pattern that counts somewhere.
fn fold(frames: &[u8], state: &mut State, count: usize, links: &[u16; 28672]) -> bool
    requires { let t : Slots = table_of frames.now state.old count in
        Standing t × Beside frames.now (starts_in state.old) count links.now }
    ensures { let t : Slots = table_of frames.now state.old count in
        let u : Slots = table_of frames.now state.new count in
        Tried (first_of (λ x. anywhere (pattern_at (program_of t) x) (program_of t)) patterns) t u result }
{
    let nowhere = count as u16;
    let mut first = [nowhere; 256];
    let mut after = [0u16; 1024];
    fill_chains(state, count, &mut first, &mut after);
    for k in 0..23 {
        if fold_with(frames, state, count, links, &first, &after, pattern(k)) {
            return true;
        }
    }
    false
}

// The same, if folds are asked for: "whether folds run" (C-24).
pub fn fold_asked(
    asked: Settings,
    frames: &[u8],
    state: &mut State,
    count: usize,
    links: &[u16; 28672],
) -> bool
    requires { let t : Slots = table_of frames.now state.old count in
        Standing t × Beside frames.now (starts_in state.old) count links.now }
    ensures { let t : Slots = table_of frames.now state.old count in
        let u : Slots = table_of frames.now state.new count in
        Tried (first_of (λ x. anywhere (pattern_at (program_of t) x) (program_of t)) (patterns_for asked)) t u result }
{
    asked.folds && fold(frames, state, count, links)
}
