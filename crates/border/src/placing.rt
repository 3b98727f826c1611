// Where each instruction and each piece of data stands in both images, for C.
ghost use Rattle.std.specs.Prelude.{◌≡◌, length};
ghost use Rattle.mapping.specs.Entry.{mapped, answer_as, room_as};
ghost use Rattle.border_core.specs.Replies.{asked_by};
ghost use Rattle.border_walks.specs.Maps.{SaysMap};

use border_walks::{MapReply, map_answer};

// `mapping`, for C.
#[unsafe(no_mangle)]
pub extern "C" fn mortarbee_map(
    comments: u8,
    callf: u8,
    folds: u8,
    listing: &[u8],
    out: &mut [u8],
) -> MapReply
    ensures fact { let x = mapped (asked_by comments callf folds) listing.now (length out.old) in
        SaysMap result (answer_as x) }
    ensures out_after { let x = mapped (asked_by comments callf folds) listing.now (length out.old) in
        out.new ≡ room_as x out.old }
{
    map_answer(comments, callf, folds, listing, out)
}
