// The slots of a listing as read: each instruction with its own form and its own target, no inner label.
ghost use Rattle.std.specs.Prelude.{◌≡◌, ℕ, ◌≤◌, List, ◌++◌, length, drop};
ghost use Rattle.laws.specs.Counts.{tab};
ghost use Rattle.listing.specs.Tables.{Held};
ghost use Rattle.asm.specs.Starting.{Column, Started};

use listing::{FORM, SECOND, Starts, THIRD};
use slots::State;

// A stripe of what reading found.
fn column(starts: &Starts, from: usize) -> [u16; 1025]
    requires { from ≤ 3075 }
    ensures { Column starts.now from result }
{
    let mut r = [0u16; 1025];
    r.copy_from_slice(&starts[from..from + 1025]);
    r
}

// Fills whose target stands at each place: its own.
fn start_carry(count: usize, carry: &mut [u16; 1025])
    requires { (count ≤ 1024) × (length carry.old ≡ 1025) }
    ensures { carry.new ≡ tab (λ i. i) count ++ drop count carry.old }
{
    for i in 0..count {
        carry[i] = i as u16;
    }
}

// The state of a listing as read: no target is an inner label.
pub fn start_state(starts: &Starts, count: usize) -> State
    requires { (frames : List ℕ) × Held frames starts.now count }
    ensures { (frames : List ℕ) → Held frames starts.now count → Started frames starts.now count result }
{
    let mut carry = [0u16; 1025];
    start_carry(count, &mut carry);
    let first = column(starts, 0);
    let second = column(starts, SECOND);
    let third = column(starts, THIRD);
    let written = column(starts, FORM);
    let owners = [1024u16; 1025];
    let offsets = [0u16; 1025];
    [
        first, second, third, written, written, carry, owners, offsets,
    ]
}
