// C-19, for C: a text for people, read into a listing.
ghost use Rattle.border_read.specs.Replies.{Replies};

use border_read::{ReadReply, read_reply};

// `read_people`, for C.
#[unsafe(no_mangle)]
pub extern "C" fn mortarbee_read(text: &[u8], listing: &mut [u8]) -> ReadReply
    ensures { Replies text.now result listing.old listing.new }
{
    read_reply(text, listing)
}
