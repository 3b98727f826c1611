// Names found once a run: beside each byte of a frame that may begin a name, the place of the statement that defines it. No rewrite changes
// what a name as read means, so that a candidate looks nothing up.
ghost use Rattle.std.specs.Prelude.{◌≡◌, ℕ, ◌+◌, ◌<◌, ◌≤◌, length, get_or, drop};
ghost use Rattle.rules.specs.declared.Tag.TheVariants.{Name};
ghost use Rattle.rules.specs.Expressions.{tag_of, name_of};
ghost use Rattle.expression.specs.Linked.{Links};
ghost use Rattle.listing.specs.Tables.{frame_at, Held};
ghost use Rattle.env.specs.Linking.{OneAtMost, Means, LinkedTo};
ghost use Rattle.slots.specs.State.{starts_in};

use expression::{defines, tag_of};
use rules::Tag;
use slots::{State, start_at};

// No place: the links are plain numbers in fixed memory (D-137).
const NONE: u16 = 65535;

// The place that defines what `name` means in `context`, of `count` statements that define no name twice.
fn place_of(
    names: &[u32; 1024],
    contexts: &[u16; 1024],
    count: usize,
    context: u16,
    name: u16,
) -> u16
    requires { (count ≤ 1024) × OneAtMost names.now contexts.now count }
    ensures { Means names.now contexts.now count context name result }
{
    match (0..count).find(|&i| defines(names[i], contexts[i], name, context)) {
        Some(i) => i as u16, // not in a closure, which does not know that i is below `count`
        None => NONE,
    }
}

// The link of the byte at a: where a name may begin there, the place that it means in `context`.
fn link_at(
    frames: &[u8],
    names: &[u32; 1024],
    contexts: &[u16; 1024],
    count: usize,
    context: u16,
    a: usize,
) -> u16
    requires { (a + 2 < length frames.now) × (a < 28672) × (count ≤ 1024) × OneAtMost names.now contexts.now count }
    ensures { tag_of (get_or frames.now a 0) ≡ Name
        → Means names.now contexts.now count context (name_of (drop a frames.now)) result }
{
    if !matches!(tag_of(frames[a]), Tag::Name) {
        return NONE;
    }
    let name = u16::from_be_bytes([frames[a + 1], frames[a + 2]]);
    place_of(names, contexts, count, context, name)
}

// Links the bytes of the frame from `from` to `end`, of a statement in `context`.
fn link_frame(
    frames: &[u8],
    names: &[u32; 1024],
    contexts: &[u16; 1024],
    count: usize,
    context: u16,
    from: usize,
    end: usize,
    links: &mut [u16; 28672],
)
    requires frames_len { (length frames.now ≡ 28672) × (length links.old ≡ 28672) × (from ≤ end) × (end ≤ 28672) }
    requires count_bound { (count ≤ 1024) × OneAtMost names.now contexts.now count }
    ensures room { length links.new ≡ 28672 }
    ensures linked { LinkedTo frames.now names.now contexts.now count context from end end
        links.old links.new }
{
    // a name has three bytes
    for a in from..end.saturating_sub(2) {
        links[a] = link_at(frames, names, contexts, count, context, a);
    }
}

// Links the bytes of every frame.
pub fn fill_links(
    frames: &[u8],
    state: &State,
    count: usize,
    names: &[u32; 1024],
    contexts: &[u16; 1024],
    links: &mut [u16; 28672],
)
    requires { Held frames.now (starts_in state.now) count × (length links.old ≡ 28672) × OneAtMost names.now
        contexts.now count }
    ensures room { length links.new ≡ 28672 }
    ensures by_index { (c : ℕ) → c < count → Links names.now contexts.now count (get_or contexts.now c 0)
        (frame_at frames.now (starts_in state.now) c) (frame_at links.new
        (starts_in state.now) c) }
{
    for i in 0..count {
        let from = start_at(state, i);
        let end = start_at(state, i + 1);
        link_frame(
            frames,
            names,
            contexts,
            count,
            contexts[i],
            from,
            end,
            links,
        );
    }
}
