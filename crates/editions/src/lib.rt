// C-24: a run under a family's edition, or under its newest. The store is judged and asked first; the run is that of the settings found.
#![tactic(auto)]

ghost use Rattle.std.specs.Prelude.{length};
ghost use Rattle.finishing.specs.Ending.{Delivers};
ghost use Rattle.editions.specs.Under.{run_edition, run_newest};

use entries::optimize_jumps;
use rules::{Refusal, Sizes};
use store::{get_edition, get_newest};

// `optimize_jumps` under a family's edition; or refusal 12, 19 or 17 of the store, and no lent byte changes.
pub fn optimize_under(
    store: &[u8],
    family: u16,
    edition: u16,
    listing: &[u8],
    out: &mut [u8],
    image: &mut [u8],
) -> Result<Sizes, Refusal>
    ensures { let text = listing.now in
        let x = run_edition store.now family edition text (length out.old) (length image.old) in
        Delivers x result out.old image.old out.new image.new }
{
    let found = get_edition(store, family, edition)?;
    optimize_jumps(found.settings, listing, out, image)
}

// The same under a family's newest edition.
pub fn optimize_under_newest(
    store: &[u8],
    family: u16,
    listing: &[u8],
    out: &mut [u8],
    image: &mut [u8],
) -> Result<Sizes, Refusal>
    ensures { let text = listing.now in
        let x = run_newest store.now family text (length out.old) (length image.old) in
        Delivers x result out.old image.old out.new image.new }
{
    let newest = get_newest(store, family)?;
    optimize_jumps(newest.settings, listing, out, image)
}
