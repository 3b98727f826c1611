// C-19 for the border: a text for people read into a listing, with its answer as a struct of numbers.
#![tactic(auto)]

ghost use Rattle.std.specs.Prelude.{Err};
ghost use Rattle.border_read.specs.Replies.{Says, Replies};

use border_core::told_of;
use intake::read_people;
use rules::{Refusal, Sizes};

// 0 and the listing's length; or a refusal's number, its place, and for 15 the column.
#[repr(C)]
#[derive(Clone, Copy)]
pub struct ReadReply {
    pub number: u64,
    pub place: u64,
    pub argument: u64,
    pub amount: i64,
    pub listing: u64,
}

fn refused(r: Refusal) -> ReadReply
    ensures { Says result (Err r) }
{
    let t = told_of(r);
    ReadReply {
        number: t.number,
        place: t.place,
        argument: t.argument,
        amount: t.amount,
        listing: 0,
    }
}

fn reply_of(answer: Result<Sizes, Refusal>) -> ReadReply
    ensures { Says result answer }
{
    match answer {
        Err(r) => refused(r),
        Ok(s) => ReadReply {
            number: 0,
            place: 0,
            argument: 0,
            amount: 0,
            listing: s.listing as u64,
        },
    }
}

// `read_people`, with its answer so.
pub fn read_reply(text: &[u8], listing: &mut [u8]) -> ReadReply
    ensures { Replies text.now result listing.old listing.new }
{
    reply_of(read_people(text, listing))
}
