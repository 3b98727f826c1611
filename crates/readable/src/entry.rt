// The public entry: what is refused, in its order, and then the text.
ghost use Rattle.std.specs.Prelude.{◌≡◌, length};
ghost use Rattle.listing.specs.Tables.{input_of, Held};
ghost use Rattle.digits.specs.Leaves.{Leaves};
ghost use Rattle.readable.specs.Readable.{within, readable};

use crate::lines::{text_length, write_lines};
use listing::{Starts, read_listing};
use rules::{Refusal, Sizes};

// The text of the statements in the tables: 12, or all of it.
fn write_read(
    frames: &[u8],
    starts: &Starts,
    count: usize,
    text: &mut [u8],
) -> Result<Sizes, Refusal>
    requires { Held frames.now starts.now count }
    ensures { let x = within (input_of frames.now starts.now count) (length text.old) in
        Leaves x result text.old text.new }
{
    let n = text_length(frames, starts, count);
    if text.len() < n {
        return Err(Refusal::Room(count));
    }
    write_lines(frames, starts, count, text);
    Ok(Sizes {
        listing: n,
        rewrites: 0,
        image: 0,
    })
}

// Writes a listing of either form as text for people. On refusal no lent byte changes.
pub fn readable_text(listing: &[u8], text: &mut [u8]) -> Result<Sizes, Refusal>
    ensures { let x = readable listing.now (length text.old) in
        Leaves x result text.old text.new }
{
    let mut frames = [0u8; 28672];
    let mut starts = [0u16; 4100];
    let mut lines = [0u32; 1024];
    let count = read_listing(listing, &mut frames, &mut starts, &mut lines)?;
    write_read(&frames, &starts, count, text)
}
