// The functions for C and Rust of the store, of a run under an edition, and of an image read back.
ghost use Rattle.std.specs.Prelude.{◌≡◌, length};
ghost use Rattle.entries.specs.Optimizing.{Delivers};
ghost use Rattle.readback.specs.ReadBack.{read_back};
ghost use Rattle.readback.specs.Entry.{answer_as as read_as, room_as as read_room};
ghost use Rattle.store.specs.Rooms.{get_in, newest_in, place_in, add_in, drop_in, after_add, after_drop, found_as, shown_as, numbered_as};
ghost use Rattle.border_core.specs.Replies.{asked_by, Says, Ends};
ghost use Rattle.border.specs.Exported.{run_under, SaysNumbered, SaysFound, SaysShown};

use crate::replies::{
    FoundReply, NumberedReply, ShownReply, found_reply, numbered_reply, shown_reply,
};
use border_core::{Reply, reply_of, settings_of};
use editions::{optimize_under, optimize_under_newest};
use readback::entry::read_back;
use rules::{Refusal, Sizes};
use store::{add_edition, drop_old, get_edition, get_newest, show_place};

// `add_edition`, for C.
#[unsafe(no_mangle)]
pub extern "C" fn mortarbee_add_edition(
    room: &mut [u8],
    family: u16,
    comments: u8,
    callf: u8,
    folds: u8,
) -> NumberedReply
    ensures says_numbered { SaysNumbered result (numbered_as (add_in room.old family)) }
    ensures room_after { room.new ≡ after_add room.old family (asked_by comments callf folds) }
{
    numbered_reply(add_edition(room, family, settings_of(comments, callf, folds)))
}

// `get_edition`, for C.
#[unsafe(no_mangle)]
pub extern "C" fn mortarbee_get_edition(room: &[u8], family: u16, edition: u16) -> FoundReply
    ensures { SaysFound result (found_as (get_in room.now family edition)) }
{
    found_reply(get_edition(room, family, edition))
}

// `get_newest`, for C.
#[unsafe(no_mangle)]
pub extern "C" fn mortarbee_get_newest(room: &[u8], family: u16) -> FoundReply
    ensures { SaysFound result (found_as (newest_in room.now family)) }
{
    found_reply(get_newest(room, family))
}

// `show_place`, for C.
#[unsafe(no_mangle)]
pub extern "C" fn mortarbee_show_place(room: &[u8], k: usize) -> ShownReply
    ensures { SaysShown result (shown_as (place_in room.now k)) }
{
    shown_reply(show_place(room, k))
}

// `drop_old`, for C.
#[unsafe(no_mangle)]
pub extern "C" fn mortarbee_drop_old(room: &mut [u8], family: u16) -> NumberedReply
    ensures says_numbered { SaysNumbered result (numbered_as (drop_in room.old family)) }
    ensures room_after { room.new ≡ after_drop room.old family }
{
    numbered_reply(drop_old(room, family))
}

// A run under an edition of a family, 0 for its newest: no edition has the number 0.
fn run_under(
    store: &[u8],
    family: u16,
    edition: u16,
    listing: &[u8],
    out: &mut [u8],
    image: &mut [u8],
) -> Result<Sizes, Refusal>
    ensures { let text = listing.now in
        let x = run_under store.now family edition text (length out.old) (length image.old) in
        Delivers x result out.old image.old out.new image.new }
{
    if edition == 0 {
        optimize_under_newest(store, family, listing, out, image)
    } else {
        optimize_under(store, family, edition, listing, out, image)
    }
}

// `optimize_under` and `optimize_under_newest`, for C.
#[unsafe(no_mangle)]
pub extern "C" fn mortarbee_optimize_jumps_under(
    store: &[u8],
    family: u16,
    edition: u16,
    listing: &[u8],
    out: &mut [u8],
    image: &mut [u8],
) -> Reply
    ensures { let text = listing.now in
        let end = run_under store.now family edition text (length out.old) (length image.old) in
        Ends end result out.old image.old out.new image.new }
{
    reply_of(run_under(store, family, edition, listing, out, image))
}

// `read_back`, for C: the listing of an image from a start on. `rewrites` and `image` are 0.
#[unsafe(no_mangle)]
pub extern "C" fn mortarbee_read_back(image: &[u8], start: usize, listing: &mut [u8]) -> Reply
    ensures fact { let x = read_back image.now start (length listing.old) in Says result (read_as x) }
    ensures listing_after { let x = read_back image.now start (length listing.old) in
        listing.new ≡ read_room x listing.old }
{
    reply_of(read_back(image, start, listing))
}
