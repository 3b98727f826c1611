// What document 01's program prints: the page of an accepted text, or a refusal's 7E line.
ghost use Rattle.std.specs.Prelude.{◌≡◌, Err};
ghost use Rattle.rules.specs.Output.{refused_line};
ghost use Rattle.border_core.specs.Replies.{asked_by};
ghost use Rattle.border_core.specs.Pages.{SaysPrinted, Prints};

use crate::faults::{settings_of, told_of};
use output::refused_line;
use printing::{page_length, print_run};
use rules::{Refusal, Sizes};

// How many bytes of the page are what is printed, how many of them the listing, the rewrites, and the bytes of the image.
#[repr(C)]
#[derive(Clone, Copy)]
pub struct PrintedReply {
    pub number: u64,
    pub place: u64,
    pub argument: u64,
    pub amount: i64,
    pub page: u64,
    pub listing: u64,
    pub rewrites: u64,
    pub image: u64,
}

fn refused(r: Refusal) -> PrintedReply
    ensures { SaysPrinted result (Err r) }
{
    let t = told_of(r);
    PrintedReply {
        number: t.number,
        place: t.place,
        argument: t.argument,
        amount: t.amount,
        page: 0,
        listing: 0,
        rewrites: 0,
        image: 0,
    }
}

fn printed_reply(answer: Result<Sizes, Refusal>) -> PrintedReply
    ensures { SaysPrinted result answer }
{
    let page = page_length(answer);
    match answer {
        Err(r) => refused(r),
        Ok(s) => PrintedReply {
            number: 0,
            place: 0,
            argument: 0,
            amount: 0,
            page: page as u64,
            listing: s.listing as u64,
            rewrites: s.rewrites as u64,
            image: s.image as u64,
        },
    }
}

// `print_run`, for C.
pub fn mortarbee_print_run(
    comments: u8,
    callf: u8,
    folds: u8,
    listing: &[u8],
    page: &mut [u8; 62482],
    image: &mut [u8; 65536],
) -> PrintedReply
    ensures { Prints (asked_by comments callf folds) listing.now result page.old image.old
        page.new image.new }
{
    printed_reply(print_run(settings_of(comments, callf, folds), listing, page, image))
}

// The 7E line of four numbers, for C.
pub fn mortarbee_refusal_line(
    number: u8,
    place: u16,
    argument: u8,
    amount: i32,
    line: &mut [u8; 19],
)
    ensures { line.new ≡ refused_line (record { number = number; place = place; argument = argument; amount = amount }) }
{
    refused_line(number, place as usize, argument as usize, amount, line);
}
