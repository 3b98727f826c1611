// C-16, for C: a listing as text for people.
ghost use Rattle.border_core.specs.Replies.{Reads};

use crate::replies::{Reply, reply_of};
use readable::readable_text;

// `readable_text`, for C. `listing` is the text's length; `rewrites` and `image` are 0.
pub fn mortarbee_text(listing: &[u8], text: &mut [u8]) -> Reply
    ensures { Reads listing.now result text.old text.new }
{
    reply_of(readable_text(listing, text))
}
