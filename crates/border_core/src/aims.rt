// `targets`, for C, and its answer as a struct of numbers.
ghost use Rattle.std.specs.Prelude.{Err};
ghost use Rattle.border_core.specs.Replies.{asked_by};
ghost use Rattle.border_core.specs.Aims.{Aims, SaysTargets};

use crate::faults::{settings_of, told_of};
use rules::Refusal;
use targets::{Counts, targets};

// How many bytes of lines are in the lent room, for how many transfers, and how many of them are marked.
#[repr(C)]
#[derive(Clone, Copy)]
pub struct TargetsReply {
    pub number: u64,
    pub place: u64,
    pub argument: u64,
    pub amount: i64,
    pub lines: u64,
    pub transfers: u64,
    pub marked: u64,
}

fn refused(r: Refusal) -> TargetsReply
    ensures { SaysTargets result (Err r) }
{
    let t = told_of(r);
    TargetsReply {
        number: t.number,
        place: t.place,
        argument: t.argument,
        amount: t.amount,
        lines: 0,
        transfers: 0,
        marked: 0,
    }
}

fn targets_reply(answer: Result<Counts, Refusal>) -> TargetsReply
    ensures { SaysTargets result answer }
{
    match answer {
        Err(r) => refused(r),
        Ok(c) => TargetsReply {
            number: 0,
            place: 0,
            argument: 0,
            amount: 0,
            lines: c.bytes as u64,
            transfers: c.transfers as u64,
            marked: c.marked as u64,
        },
    }
}

// `targets`, for C.
pub fn mortarbee_targets(
    comments: u8,
    callf: u8,
    folds: u8,
    listing: &[u8],
    out: &mut [u8],
) -> TargetsReply
    ensures { Aims (asked_by comments callf folds) listing.now result out.old out.new }
{
    targets_reply(targets(settings_of(comments, callf, folds), listing, out))
}
