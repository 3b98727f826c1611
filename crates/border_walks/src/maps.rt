// `mapping`, for C, and its answer as a struct of numbers.
ghost use Rattle.std.specs.Prelude.{◌≡◌, length, Err};
ghost use Rattle.mapping.specs.Entry.{mapped, answer_as, room_as};
ghost use Rattle.border_core.specs.Replies.{asked_by};
ghost use Rattle.border_walks.specs.Maps.{SaysMap};

use border_core::{settings_of, told_of};
use mapping::{Counts, mapping};
use rules::Refusal;

// How many bytes of lines are in the lent room, and for how many rows.
#[repr(C)]
#[derive(Clone, Copy)]
pub struct MapReply {
    pub number: u64,
    pub place: u64,
    pub argument: u64,
    pub amount: i64,
    pub lines: u64,
    pub rows: u64,
}

fn refused(r: Refusal) -> MapReply
    ensures { SaysMap result (Err r) }
{
    let t = told_of(r);
    MapReply {
        number: t.number,
        place: t.place,
        argument: t.argument,
        amount: t.amount,
        lines: 0,
        rows: 0,
    }
}

fn map_reply(answer: Result<Counts, Refusal>) -> MapReply
    ensures { SaysMap result answer }
{
    match answer {
        Err(r) => refused(r),
        Ok(c) => MapReply {
            number: 0,
            place: 0,
            argument: 0,
            amount: 0,
            lines: c.bytes as u64,
            rows: c.rows as u64,
        },
    }
}

// `mapping`, the settings as three bytes, with its answer so.
pub fn map_answer(comments: u8, callf: u8, folds: u8, listing: &[u8], out: &mut [u8]) -> MapReply
    ensures fact { let x = mapped (asked_by comments callf folds) listing.now (length out.old) in
        SaysMap result (answer_as x) }
    ensures out_after { let x = mapped (asked_by comments callf folds) listing.now (length out.old) in
        out.new ≡ room_as x out.old }
{
    map_reply(mapping(settings_of(comments, callf, folds), listing, out))
}
