// C-17: where statement n sits, answered from the frames before n alone.
#![tactic(auto)]

ghost use Rattle.std.specs.Prelude.{◌≡◌};
ghost use Rattle.listing.specs.Tables.{input_of, Held};
ghost use Rattle.sits.specs.Sits.{sits_among, sits, sits_as};

use asm::{address_of, start_state};
use env::lay_out;
use listing::{Starts, read_listing};
use rules::{Address, Place, Refusal};

mod all; // of every statement at once
mod before; // how many bytes come before statement n

pub use all::{Laid, all_sit};

// Where statement n sits behind the `count` statements before it that were read: 5 and 6, then 14.
fn sits_behind(frames: &[u8], starts: &Starts, count: usize, n: usize) -> Result<Address, Refusal>
    requires { Held frames.now starts.now count }
    ensures { result ≡ sits_as (sits_among n (input_of frames.now starts.now count)) }
{
    let mut positions = [0u32; 1025];
    let state = start_state(starts, count);
    lay_out(frames, &state, count, &mut positions)?;
    if count < n {
        return Err(Refusal::Absent);
    }
    Ok(address_of(&positions, Place(n), 0))
}

// Where statement n of a listing sits, or the first refusal. Nothing at n or behind it is looked at.
pub fn where_sits(listing: &[u8], n: usize) -> Result<Address, Refusal>
    ensures { result ≡ sits_as (sits listing.now n) }
{
    let mut frames = [0u8; 28672];
    let mut starts = [0u16; 4100];
    let mut lines = [0u32; 1024];
    let end = before::bytes_before(listing, n);
    let count = read_listing(&listing[..end], &mut frames, &mut starts, &mut lines)?;
    sits_behind(&frames, &starts, count, n)
}
