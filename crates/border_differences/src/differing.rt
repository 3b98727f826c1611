// The differences of two listings: the answer, whose refusal it is, and how long the text is.
ghost use Rattle.rules.specs.Refusals.{fault_of};
ghost use Rattle.border_differences.specs.Replies.{TellsWhose, SaysDiffers, TellsDifferences};

use border_core::told_of;
use differences::{Whose, differences};
use rules::Refusal;

// Whose refusal it is, 1 the first listing's, 2 the second's, 0 neither's; and how many bytes of text are in the lent room.
#[repr(C)]
#[derive(Clone, Copy)]
pub struct DiffersReply {
    pub number: u64,
    pub place: u64,
    pub argument: u64,
    pub amount: i64,
    pub whose: u64,
    pub text: u64,
}

fn refused_for(whose: u64, r: Refusal) -> DiffersReply
    ensures { TellsWhose result whose (fault_of r) }
{
    let t = told_of(r);
    DiffersReply {
        number: t.number,
        place: t.place,
        argument: t.argument,
        amount: t.amount,
        whose,
        text: 0,
    }
}

fn reply_of(answer: Result<usize, Whose>) -> DiffersReply
    ensures { SaysDiffers result answer }
{
    match answer {
        Err(Whose::OfFirst(r)) => refused_for(1, r),
        Err(Whose::OfSecond(r)) => refused_for(2, r),
        Err(Whose::OfBoth(r)) => refused_for(0, r),
        Ok(n) => DiffersReply {
            number: 0,
            place: 0,
            argument: 0,
            amount: 0,
            whose: 0,
            text: n as u64,
        },
    }
}

// `differences`, with its answer so; a pairing is given where `given` is not 0.
pub fn tell_differences(
    first: &[u8],
    second: &[u8],
    given: u8,
    pairing: &[u8],
    out: &mut [u8],
) -> DiffersReply
    ensures { TellsDifferences first.now second.now given pairing.now result
        out.old out.new }
{
    reply_of(differences(first, second, (given != 0).then_some(pairing), out))
}
