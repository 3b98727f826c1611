// The public entry: 12 for either room, and then the listing and the report.
ghost use Rattle.std.specs.Prelude.{◌≡◌, ◌≤◌, length};
ghost use Rattle.rules.specs.Output.{mark_of};
ghost use Rattle.listing.specs.Form.{form_of};
ghost use Rattle.digits.specs.Digits.{laid};
ghost use Rattle.salvage.specs.Salvage.{salvage as answer};
ghost use Rattle.salvage.specs.Entry.{Leaves};
ghost use Rattle.salvage.specs.Turns.{mark_length};

use crate::walks::{Extent, measure, write_from};
use digits::put_line;
use listing::new_form;
use rules::Refusal;

// How many bytes the first line 7D02 has, with its line feed.
fn mark_length(marked: bool) -> usize
    ensures { result ≡ mark_length marked }
{
    if marked { 5 } else { 0 }
}

// That line, at the front of the room.
fn put_mark(marked: bool, listing: &mut [u8])
    requires { mark_length marked ≤ length listing.old }
    ensures { listing.new ≡ laid listing.old 0 (mark_of (form_of marked)) }
{
    if marked {
        let frame = [0x7D, 0x02];
        put_line(listing, 0, &frame);
    }
}

// Salvages a text of any bytes: what is in the lent rooms, or 12, on which no lent byte changes.
pub fn salvage(text: &[u8], listing: &mut [u8], report: &mut [u8]) -> Result<Extent, Refusal>
    ensures { let x = answer text.now (length listing.old) (length report.old) in
        Leaves x result listing.old report.old listing.new report.new }
{
    let marked = new_form(text);
    let start = mark_length(marked);
    let rest = measure(text, marked, start);
    let chars = start + rest.listing;
    if listing.len() < chars || report.len() < rest.report {
        return Err(Refusal::Room(rest.statements));
    }
    put_mark(marked, listing);
    write_from(text, marked, start, listing, report);
    Ok(Extent {
        listing: chars,
        ..rest
    })
}
