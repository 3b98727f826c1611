// Origins: "a byte's origin is a statement place and an offset, never an address". From an address to its origin, and back.
ghost use Rattle.std.specs.Prelude.{◌≡◌, ◌&&◌, ◌+◌, ◌<◌, leb, ltb, get_or};
ghost use Rattle.listing.specs.Tables.{Held};
ghost use Rattle.slots.specs.Slots.{Positioned};
ghost use Rattle.env.specs.Tables.{Any};
ghost use Rattle.asm.specs.Belonging.{FoundAs};
ghost use Rattle.slots.specs.State.{starts_in, forms_in};

use rules::{Address, Place};
use slots::{State, size_at};

// Whether a statement of `size` bytes that comes at `from` has the byte at an address.
fn has_byte(from: Address, size: usize, address: Address) -> bool
    ensures { result ≡ leb from.0 address.0 && ltb address.0 (from.0 + size) }
{
    from.0 <= address.0 && address.0 - from.0 < size
}

// The statement that has the byte at an address, and the byte's place in it; or no statement has it. `positions` are those of the slots.
pub fn origin_of(
    frames: &[u8],
    state: &State,
    count: usize,
    positions: &[u32; 1025],
    address: Address,
) -> Option<(Place, usize)>
    requires { Held frames.now (starts_in state.now) count
        × Any frames.now (starts_in state.now) count (forms_in state.now) (λ t. Positioned t positions.now) }
    ensures { Any frames.now (starts_in state.now) count (forms_in state.now) (λ t. FoundAs t
        address.0 result) }
{
    for i in 0..count {
        let from = Address(positions[i] as usize);
        let size = size_at(frames, state, count, Place(i), from);
        if has_byte(from, size, address) {
            return Some((Place(i), address.0 - from.0));
        }
    }
    None
}

// The address of the byte at an offset of the statement at a place, in the program that has these positions.
pub fn address_of(positions: &[u32; 1025], at: Place, offset: usize) -> Address
    requires { (at.0 < 1025) × (offset < 65536) }
    ensures { result.0 ≡ get_or positions.now at.0 0 + offset }
{
    let i = at.0;
    Address(positions[i] as usize + offset)
}
