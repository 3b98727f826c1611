// The place that each line stems from: a statement never leaves its slot. C-13 hands the list out, two bytes an entry.
ghost use Rattle.std.specs.Prelude.{◌≡◌, ◌+◌, ◌*◌, ◌≤◌, ◌<◌, length};
ghost use Rattle.rules.specs.Expressions.{pair};
ghost use Rattle.rules.specs.Run.{front};
ghost use Rattle.digits.specs.Digits.{laid};
ghost use Rattle.slots.specs.State.{forms_in};
ghost use Rattle.output.specs.Stems.{kept_to, list_of};

use rules::Place;
use slots::{State, is_gone};

// How many slots are left: as many entries has the list.
pub fn count_stems(count: usize, state: &State) -> usize
    requires { count ≤ 1024 }
    ensures { result ≡ length (kept_to (forms_in state.now) count) }
{
    (0..count).filter(|&i| !is_gone(state, Place(i))).count()
}

// An entry: high byte first.
#[tactic(auto, unfolding(digits::specs::Digits::laid))]
fn put_entry(list: &mut [u8], at: usize, i: usize)
    requires { (at + 2 ≤ length list.old) × (i < 65536) }
    ensures { list.new ≡ laid list.old at (pair i) }
{
    list[at..at + 2].copy_from_slice(&(i as u16).to_be_bytes());
}

// The places of the slots that are left, at the front of the list; how many they are.
pub fn write_stems(count: usize, state: &State, list: &mut [u8]) -> usize
    requires { (count ≤ 1024) × (2 * length (kept_to (forms_in state.now) count) ≤ length list.old) }
    ensures { let left = kept_to (forms_in state.now) count in
        (list.new ≡ front (list_of left) list.old) × (result ≡ length left) }
{
    let mut n = 0;
    for i in 0..count {
        if !is_gone(state, Place(i)) {
            put_entry(list, 2 * n, i);
            n += 1;
        }
    }
    n
}
