// `why`, for C: its answer has the numbers that the one of `steps` has.
ghost use Rattle.std.specs.Prelude.{◌≡◌, length};
ghost use Rattle.why.specs.Entry.{told, answer_as, room_as};
ghost use Rattle.border_core.specs.Replies.{asked_by};
ghost use Rattle.border_answers.specs.Replies.{SaysSteps};

use crate::rewrites::{StepsReply, steps_reply};
use border_core::settings_of;
use why::why;

// `why`, the settings as three bytes, with its answer so.
pub fn why_answer(comments: u8, callf: u8, folds: u8, listing: &[u8], out: &mut [u8]) -> StepsReply
    ensures fact { let x = told (asked_by comments callf folds) listing.now (length out.old) in
        SaysSteps result (answer_as x) }
    ensures out_after { let x = told (asked_by comments callf folds) listing.now (length out.old) in
        out.new ≡ room_as x out.old }
{
    steps_reply(why(settings_of(comments, callf, folds), listing, out))
}
