// C-13: a run that hands out its list of stems, and its answer as a struct of numbers.
ghost use Rattle.std.specs.Prelude.{Err};
ghost use Rattle.border_core.specs.Replies.{asked_by};
ghost use Rattle.border_core.specs.Stems.{SaysStems, HandsOut};

use crate::faults::{settings_of, told_of};
use entries::optimize_stems;
use rules::{Refusal, Sizes};

// What is in the lent rooms; the list has two bytes for each of its `stems` entries.
#[repr(C)]
#[derive(Clone, Copy)]
pub struct StemsReply {
    pub number: u64,
    pub place: u64,
    pub argument: u64,
    pub amount: i64,
    pub listing: u64,
    pub rewrites: u64,
    pub image: u64,
    pub stems: u64,
}

fn refused(r: Refusal) -> StemsReply
    ensures { SaysStems result (Err r) }
{
    let t = told_of(r);
    StemsReply {
        number: t.number,
        place: t.place,
        argument: t.argument,
        amount: t.amount,
        listing: 0,
        rewrites: 0,
        image: 0,
        stems: 0,
    }
}

fn stems_reply(answer: Result<(Sizes, usize), Refusal>) -> StemsReply
    ensures { SaysStems result answer }
{
    match answer {
        Err(r) => refused(r),
        Ok((s, n)) => StemsReply {
            number: 0,
            place: 0,
            argument: 0,
            amount: 0,
            listing: s.listing as u64,
            rewrites: s.rewrites as u64,
            image: s.image as u64,
            stems: n as u64,
        },
    }
}

// `optimize_stems`, for C.
pub fn mortarbee_stems(
    comments: u8,
    callf: u8,
    folds: u8,
    listing: &[u8],
    out: &mut [u8],
    image: &mut [u8],
    list: &mut [u8],
) -> StemsReply
    ensures { let asked = asked_by comments callf folds in
        HandsOut asked listing.now result out.old image.old list.old
        out.new image.new list.new }
{
    stems_reply(optimize_stems(
        settings_of(comments, callf, folds),
        listing,
        out,
        image,
        list,
    ))
}
