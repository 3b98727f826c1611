// The public entry: what is refused, in its order, and then the listing.
ghost use Rattle.intake.specs.Intake.{Leaves};

use crate::walks::{measure, write_lines};
use rules::{Refusal, Sizes};

// Reads a text of people's lines and writes its listing, of the old form. On refusal no lent byte changes.
pub fn read_people(text: &[u8], listing: &mut [u8]) -> Result<Sizes, Refusal>
    ensures { Leaves text.now result listing.old listing.new }
{
    let (count, chars) = measure(text)?;
    if listing.len() < chars {
        return Err(Refusal::Room(count));
    }
    write_lines(text, listing);
    Ok(Sizes {
        listing: chars,
        rewrites: 0,
        image: 0,
    })
}
