// A listing judged, assembled or rewritten, and where its statements sit.
ghost use Rattle.std.specs.Prelude.{◌≡◌, length};
ghost use Rattle.rules.specs.Listing.{read_listing};
ghost use Rattle.rules.specs.Run.{run};
ghost use Rattle.sits.specs.Sits.{sits, sits_as};
ghost use Rattle.border_core.specs.Replies.{asked_by, counted_as, SaysCounted, SaysSits, Assembles, Ends, Positions};

use crate::faults::settings_of;
use crate::replies::{CountedReply, Reply, SitsReply, counted_reply, reply_of, sits_reply};
use entries::{assemble, optimize_jumps};
use listing::read_listing;
use rules::Refusal;
use sits::{all_sit, where_sits};

// `assemble`, for C.
pub fn mortarbee_assemble(listing: &[u8], image: &mut [u8]) -> Reply
    ensures { Assembles listing.now result image.old image.new }
{
    reply_of(assemble(listing, image))
}

// `optimize_jumps`, for C.
pub fn mortarbee_optimize_jumps(
    comments: u8,
    callf: u8,
    folds: u8,
    listing: &[u8],
    out: &mut [u8],
    image: &mut [u8],
) -> Reply
    ensures { let asked = asked_by comments callf folds in
        let end = run asked listing.now (length out.old) (length image.old) in
        Ends end result out.old image.old out.new image.new }
{
    reply_of(optimize_jumps(settings_of(comments, callf, folds), listing, out, image))
}

// How many statements a text has that keeps the form of a listing: 1 and 2 alone.
fn count(listing: &[u8]) -> Result<usize, Refusal>
    ensures { result ≡ counted_as (read_listing listing.now) }
{
    let mut frames = [0u8; 28672];
    let mut starts = [0u16; 4100];
    let mut lines = [0u32; 1024];
    read_listing(listing, &mut frames, &mut starts, &mut lines)
}

// The same for C.
pub fn mortarbee_check(listing: &[u8]) -> CountedReply
    ensures { SaysCounted result (counted_as (read_listing listing.now)) }
{
    counted_reply(count(listing))
}

// `where_sits`, for C.
pub fn mortarbee_where_sits(listing: &[u8], n: usize) -> SitsReply
    ensures { SaysSits result (sits_as (sits listing.now n)) }
{
    sits_reply(where_sits(listing, n))
}

// `all_sit`, for C.
pub fn mortarbee_positions(listing: &[u8], positions: &mut [u32; 1025]) -> CountedReply
    ensures { Positions listing.now result positions.old positions.new }
{
    let laid = all_sit(listing, *positions);
    let table = laid.positions;
    *positions = table;
    let answer = laid.answer;
    counted_reply(answer)
}
