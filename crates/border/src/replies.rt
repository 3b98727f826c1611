// Answers of the store as structs of numbers: number 0 and what was asked for, or a refusal's four numbers and zeros.
ghost use Rattle.std.specs.Prelude.{◌≡◌, Err, Ok, Some, None};
ghost use Rattle.border.specs.Exported.{bit, SaysNumbered, SaysFound, SaysShown};

use border_core::told_of;
use rules::Refusal;
use store::{Edition, Setting};

// Of `add_edition` and `drop_old`: the edition's number.
#[repr(C)]
#[derive(Clone, Copy)]
pub struct NumberedReply {
    pub number: u64,
    pub place: u64,
    pub argument: u64,
    pub amount: i64,
    pub edition: u64,
}

// Of `get_edition` and `get_newest`: the edition's number and its settings, 1 for yes.
#[repr(C)]
#[derive(Clone, Copy)]
pub struct FoundReply {
    pub number: u64,
    pub place: u64,
    pub argument: u64,
    pub amount: i64,
    pub edition: u64,
    pub comments: u64,
    pub callf: u64,
    pub folds: u64,
}

// Of `show_place`: 1 where the place holds an edition, and then which, with its settings, 1 for yes.
#[repr(C)]
#[derive(Clone, Copy)]
pub struct ShownReply {
    pub number: u64,
    pub place: u64,
    pub argument: u64,
    pub amount: i64,
    pub held: u64,
    pub family: u64,
    pub edition: u64,
    pub comments: u64,
    pub callf: u64,
    pub folds: u64,
}

fn not_numbered(r: Refusal) -> NumberedReply
    ensures { SaysNumbered result (Err r) }
{
    let t = told_of(r);
    NumberedReply {
        number: t.number,
        place: t.place,
        argument: t.argument,
        amount: t.amount,
        edition: 0,
    }
}

pub fn numbered_reply(answer: Result<u16, Refusal>) -> NumberedReply
    ensures { SaysNumbered result answer }
{
    match answer {
        Err(r) => not_numbered(r),
        Ok(n) => NumberedReply {
            number: 0,
            place: 0,
            argument: 0,
            amount: 0,
            edition: n as u64,
        },
    }
}

fn bit(on: bool) -> u64
    ensures { result ≡ bit on }
{
    if on { 1 } else { 0 }
}

fn found(e: Edition) -> FoundReply
    ensures { SaysFound result (Ok e) }
{
    FoundReply {
        number: 0,
        place: 0,
        argument: 0,
        amount: 0,
        edition: e.number as u64,
        comments: bit(e.settings.comments),
        callf: bit(e.settings.callf),
        folds: bit(e.settings.folds),
    }
}

fn not_found(r: Refusal) -> FoundReply
    ensures { SaysFound result (Err r) }
{
    let t = told_of(r);
    FoundReply {
        number: t.number,
        place: t.place,
        argument: t.argument,
        amount: t.amount,
        edition: 0,
        comments: 0,
        callf: 0,
        folds: 0,
    }
}

pub fn found_reply(answer: Result<Edition, Refusal>) -> FoundReply
    ensures { SaysFound result answer }
{
    match answer {
        Err(r) => not_found(r),
        Ok(e) => found(e),
    }
}

fn shown(s: Setting) -> ShownReply
    ensures { SaysShown result (Ok (Some s)) }
{
    ShownReply {
        number: 0,
        place: 0,
        argument: 0,
        amount: 0,
        held: 1,
        family: s.family as u64,
        edition: s.edition as u64,
        comments: bit(s.switches % 2 == 1),
        callf: bit(s.switches / 2 % 2 == 1),
        folds: bit(s.switches / 4 % 2 == 1),
    }
}

fn free() -> ShownReply
    ensures { SaysShown result (Ok None) }
{
    ShownReply {
        number: 0,
        place: 0,
        argument: 0,
        amount: 0,
        held: 0,
        family: 0,
        edition: 0,
        comments: 0,
        callf: 0,
        folds: 0,
    }
}

fn not_shown(r: Refusal) -> ShownReply
    ensures { SaysShown result (Err r) }
{
    let t = told_of(r);
    ShownReply {
        number: t.number,
        place: t.place,
        argument: t.argument,
        amount: t.amount,
        held: 0,
        family: 0,
        edition: 0,
        comments: 0,
        callf: 0,
        folds: 0,
    }
}

pub fn shown_reply(answer: Result<Option<Setting>, Refusal>) -> ShownReply
    ensures { SaysShown result answer }
{
    match answer {
        Err(r) => not_shown(r),
        Ok(None) => free(),
        Ok(Some(s)) => shown(s),
    }
}
