// `steps`, for C, and its answer as a struct of numbers.
ghost use Rattle.std.specs.Prelude.{◌≡◌, length, Err};
ghost use Rattle.steps.specs.Entry.{told, answer_as, room_as};
ghost use Rattle.border_core.specs.Replies.{asked_by};
ghost use Rattle.border_answers.specs.Replies.{SaysSteps};

use border_core::{settings_of, told_of};
use rules::{Refusal, Sizes};
use steps::steps;

// How many bytes of lines are in the lent room, and how many rewrites they tell.
#[repr(C)]
#[derive(Clone, Copy)]
pub struct StepsReply {
    pub number: u64,
    pub place: u64,
    pub argument: u64,
    pub amount: i64,
    pub lines: u64,
    pub rewrites: u64,
}

fn refused(r: Refusal) -> StepsReply
    ensures { SaysSteps result (Err r) }
{
    let t = told_of(r);
    StepsReply {
        number: t.number,
        place: t.place,
        argument: t.argument,
        amount: t.amount,
        lines: 0,
        rewrites: 0,
    }
}

pub fn steps_reply(answer: Result<Sizes, Refusal>) -> StepsReply
    ensures { SaysSteps result answer }
{
    match answer {
        Err(r) => refused(r),
        Ok(s) => StepsReply {
            number: 0,
            place: 0,
            argument: 0,
            amount: 0,
            lines: s.listing as u64,
            rewrites: s.rewrites as u64,
        },
    }
}

// `steps`, the settings as three bytes, with its answer so.
pub fn steps_answer(
    comments: u8,
    callf: u8,
    folds: u8,
    listing: &[u8],
    out: &mut [u8],
) -> StepsReply
    ensures fact { let x = told (asked_by comments callf folds) listing.now (length out.old) in
        SaysSteps result (answer_as x) }
    ensures out_after { let x = told (asked_by comments callf folds) listing.now (length out.old) in
        out.new ≡ room_as x out.old }
{
    steps_reply(steps(settings_of(comments, callf, folds), listing, out))
}
