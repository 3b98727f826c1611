// How deep the inner labels reach into each slot: found once for a program, where each tried shrink would ask for a scan of all slots.
ghost use Rattle.std.specs.Prelude.{◌≡◌, ℕ, max, length, get_or, replicate};
ghost use Rattle.slots.specs.Slots.{Slots, slots, Sound};
ghost use Rattle.patterns.specs.Labels.{OwnerIn};
ghost use Rattle.attempts.specs.Deepest.{depth_of, wanted_of, Deepest};
ghost use Rattle.slots.specs.State.{table_of};

use patterns::labels::inner_label_at;
use rules::Place;
use slots::State;

// One more than an offset.
fn depth(offset: usize) -> u32
    ensures { result ≡ depth_of offset }
{
    offset.min(65535) as u32 + 1
}

// What a label wants of its owner's slot, if that is more than what is wanted there.
fn store_deeper(deepest: &mut [u32; 1024], label: Option<(Place, usize)>)
    requires { (length deepest.old ≡ 1024) × OwnerIn 1024 label }
    ensures room { length deepest.new ≡ 1024 }
    ensures stored { (i : ℕ) → get_or deepest.new i 0 ≡ max (get_or deepest.old i 0) (wanted_of i label) }
{
    if let Some((owner, offset)) = label {
        deepest[owner.0] = deepest[owner.0].max(depth(offset));
    }
}

// Fills for each slot one more than the largest offset that an inner label wants there.
pub fn fill_deepest(frames: &[u8], state: &State, count: usize, deepest: &mut [u32; 1024])
    requires { let t : Slots = table_of frames.now state.now count in
        Sound t × (deepest.old ≡ replicate 1024 0) }
    ensures { let t : Slots = table_of frames.now state.now count in
        Deepest t deepest.new }
{
    for j in 0..count {
        let label = inner_label_at(frames, state, count, Place(j));
        store_deeper(deepest, label);
    }
}
