// An enum cannot cross the border to C, so an answer is a struct of numbers: number 0 and what was asked for, or a refusal's four numbers and zeros.
ghost use Rattle.std.specs.Prelude.{Err};
ghost use Rattle.border_core.specs.Replies.{Says, SaysCounted, SaysSits};

use crate::faults::told_of;
use rules::{Address, Refusal, Sizes};

// Of `assemble` and `optimize_jumps`: what is in the lent rooms.
#[repr(C)]
#[derive(Clone, Copy)]
pub struct Reply {
    pub number: u64,
    pub place: u64,
    pub argument: u64,
    pub amount: i64,
    pub listing: u64,
    pub rewrites: u64,
    pub image: u64,
}

// Of `check` and `all_sit`: how many statements there are.
#[repr(C)]
#[derive(Clone, Copy)]
pub struct CountedReply {
    pub number: u64,
    pub place: u64,
    pub argument: u64,
    pub amount: i64,
    pub statements: u64,
}

// Of `where_sits`: the address.
#[repr(C)]
#[derive(Clone, Copy)]
pub struct SitsReply {
    pub number: u64,
    pub place: u64,
    pub argument: u64,
    pub amount: i64,
    pub address: u64,
}

fn refused(r: Refusal) -> Reply
    ensures { Says result (Err r) }
{
    let t = told_of(r);
    Reply {
        number: t.number,
        place: t.place,
        argument: t.argument,
        amount: t.amount,
        listing: 0,
        rewrites: 0,
        image: 0,
    }
}

pub fn reply_of(answer: Result<Sizes, Refusal>) -> Reply
    ensures { Says result answer }
{
    match answer {
        Err(r) => refused(r),
        Ok(s) => Reply {
            number: 0,
            place: 0,
            argument: 0,
            amount: 0,
            listing: s.listing as u64,
            rewrites: s.rewrites as u64,
            image: s.image as u64,
        },
    }
}

fn not_listed(r: Refusal) -> CountedReply
    ensures { SaysCounted result (Err r) }
{
    let t = told_of(r);
    CountedReply {
        number: t.number,
        place: t.place,
        argument: t.argument,
        amount: t.amount,
        statements: 0,
    }
}

pub fn counted_reply(answer: Result<usize, Refusal>) -> CountedReply
    ensures { SaysCounted result answer }
{
    match answer {
        Err(r) => not_listed(r),
        Ok(n) => CountedReply {
            number: 0,
            place: 0,
            argument: 0,
            amount: 0,
            statements: n as u64,
        },
    }
}

fn not_sitting(r: Refusal) -> SitsReply
    ensures { SaysSits result (Err r) }
{
    let t = told_of(r);
    SitsReply {
        number: t.number,
        place: t.place,
        argument: t.argument,
        amount: t.amount,
        address: 0,
    }
}

pub fn sits_reply(answer: Result<Address, Refusal>) -> SitsReply
    ensures { SaysSits result answer }
{
    match answer {
        Err(r) => not_sitting(r),
        Ok(a) => SitsReply {
            number: 0,
            place: 0,
            argument: 0,
            amount: 0,
            address: a.0 as u64,
        },
    }
}
