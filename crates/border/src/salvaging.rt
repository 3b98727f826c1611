// C-22, for C: the function and its answer as a struct of numbers.
ghost use Rattle.std.specs.Prelude.{◌≡◌, length, Err};
ghost use Rattle.salvage.specs.Salvage.{salvage as answer};
ghost use Rattle.salvage.specs.Entry.{answer_as, listing_as, report_as};
ghost use Rattle.border.specs.Salvaging.{SaysSaved};

use border_core::told_of;
use rules::Refusal;
use salvage::Extent;
use salvage::entry::salvage;

// How many statements come out, and what is in the lent rooms.
#[repr(C)]
#[derive(Clone, Copy)]
pub struct SavedReply {
    pub number: u64,
    pub place: u64,
    pub argument: u64,
    pub amount: i64,
    pub statements: u64,
    pub listing: u64,
    pub report: u64,
}

fn not_saved(r: Refusal) -> SavedReply
    ensures { SaysSaved result (Err r) }
{
    let t = told_of(r);
    SavedReply {
        number: t.number,
        place: t.place,
        argument: t.argument,
        amount: t.amount,
        statements: 0,
        listing: 0,
        report: 0,
    }
}

fn saved_reply(answer: Result<Extent, Refusal>) -> SavedReply
    ensures { SaysSaved result answer }
{
    match answer {
        Err(r) => not_saved(r),
        Ok(e) => SavedReply {
            number: 0,
            place: 0,
            argument: 0,
            amount: 0,
            statements: e.statements as u64,
            listing: e.listing as u64,
            report: e.report as u64,
        },
    }
}

// `salvage`, for C.
#[unsafe(no_mangle)]
pub extern "C" fn mortarbee_salvage(
    text: &[u8],
    listing: &mut [u8],
    report: &mut [u8],
) -> SavedReply
    ensures fact { let x = answer text.now (length listing.old) (length report.old) in
        SaysSaved result (answer_as x) }
    ensures listing_after { let x = answer text.now (length listing.old) (length report.old) in
        listing.new ≡ listing_as x listing.old }
    ensures report_after { let x = answer text.now (length listing.old) (length report.old) in
        report.new ≡ report_as x report.old }
{
    saved_reply(salvage(text, listing, report))
}
