// The public entry: nothing is asked of the caller, and no lent byte changes.
ghost use Rattle.std.specs.Prelude.{◌≡◌, true, Ok};
ghost use Rattle.rules.specs.Judging.{assembles};
ghost use Rattle.slots.specs.Slots.{Slots, program_of};
ghost use Rattle.slots.specs.State.{starts_in, table_of};
ghost use Rattle.slots.specs.Links.{Beside};
ghost use Rattle.attempts.specs.Standing.{Standing};
ghost use Rattle.audit.specs.Audit.{audit as answer};
ghost use Rattle.audit.specs.Held.{finding_as, audit_as, end_finding};

use crate::Finding;
use crate::holding::hold_end;
use optimize::optimize;
use rules::{Refusal, Settings};
use slots::State;
use starting::begin;

// Rewrites an anchored program to its end form, and holds its image against the shipped one.
fn rewrite_and_hold(
    asked: Settings,
    frames: &[u8],
    state: &mut State,
    count: usize,
    links: &[u16; 28672],
    shipped: &[u8],
) -> Result<Finding, Refusal>
    requires { let t : Slots = table_of frames.now state.old count in
        Standing t × (assembles (program_of t) ≡ true) × Beside frames.now (starts_in state.old) count links.now }
    ensures { let t : Slots = table_of frames.now state.old count in
        result ≡ Ok (finding_as (end_finding asked (program_of t) shipped.now)) }
{
    optimize(asked, frames, state, count, links);
    hold_end(frames, state, count, links, shipped)
}

// Holds a shipped image against what a listing shrinks to; or the listing is refused.
pub fn audit(asked: Settings, listing: &[u8], shipped: &[u8]) -> Result<Finding, Refusal>
    ensures { result ≡ audit_as (answer asked listing.now shipped.now) }
{
    let mut frames = [0u8; 28672];
    let mut state = [[0u16; 1025]; 8];
    let mut links = [0u16; 28672];
    let count = begin(listing, &mut frames, &mut state, &mut links)?;
    rewrite_and_hold(asked, &frames, &mut state, count, &links, shipped)
}
