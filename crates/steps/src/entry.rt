// The public entry: 12 is judged first, so that a refusal changes no lent byte.
ghost use Rattle.std.specs.Prelude.{◌≡◌, ◌≤◌, length};
ghost use Rattle.starting.specs.Begun.{accepted};
ghost use Rattle.digits.specs.Digits.{laid};
ghost use Rattle.steps.specs.Entry.{told, Leaves, counted_as, lines_for};

use crate::walking::write_steps;
use optimize::optimize;
use rules::{Refusal, Settings, Sizes};
use starting::begin;

// Rewrites a listing only for the count: how many statements it has and how many rewrites it gets; or its refusal.
fn count_steps(asked: Settings, listing: &[u8]) -> Result<(usize, usize), Refusal>
    ensures { result ≡ counted_as asked (accepted listing.now) }
{
    let mut frames = [0u8; 28672];
    let mut state = [[0u16; 1025]; 8];
    let mut links = [0u16; 28672];
    let count = begin(listing, &mut frames, &mut state, &mut links)?;
    Ok((count, optimize(asked, &frames, &mut state, count, &links)))
}

// Rewrites it once more, and writes the lines. Nothing is written of a listing that is refused.
fn write_all(asked: Settings, listing: &[u8], out: &mut [u8])
    requires { length (lines_for asked (accepted listing.now)) ≤ length out.old }
    ensures { out.new ≡ laid out.old 0 (lines_for asked (accepted listing.now)) }
{
    let mut frames = [0u8; 28672];
    let mut state = [[0u16; 1025]; 8];
    let mut links = [0u16; 28672];
    if let Ok(count) = begin(listing, &mut frames, &mut state, &mut links) {
        write_steps(asked, &frames, &mut state, count, &links, out);
    }
}

// The rewrites of a listing, one line each. On refusal no lent byte changes.
pub fn steps(asked: Settings, listing: &[u8], out: &mut [u8]) -> Result<Sizes, Refusal>
    ensures { Leaves (told asked listing.now (length out.old)) result out.old out.new }
{
    let (count, rewrites) = count_steps(asked, listing)?;
    if out.len() / 21 < rewrites {
        return Err(Refusal::Room(count));
    }
    write_all(asked, listing, out);
    Ok(Sizes {
        listing: 21 * rewrites,
        rewrites,
        image: 0,
    })
}
