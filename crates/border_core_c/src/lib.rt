// The archive of the main job: the functions of border_core, handed to C and Rust. Nothing is asked of the caller, and every lent byte is accounted for.
#![tactic(auto)]

ghost use Rattle.std.specs.Prelude.{◌≡◌, length};
ghost use Rattle.rules.specs.Listing.{read_listing};
ghost use Rattle.rules.specs.Output.{refused_line};
ghost use Rattle.rules.specs.Run.{run};
ghost use Rattle.sits.specs.Sits.{sits, sits_as};
ghost use Rattle.border_core.specs.Replies.{asked_by, counted_as, SaysCounted, SaysSits, Assembles, Reads, Ends, Positions};
ghost use Rattle.border_core.specs.Pages.{Prints};
ghost use Rattle.border_core.specs.Aims.{Aims};
ghost use Rattle.border_core.specs.Stems.{HandsOut};

pub use border_core::{CountedReply, PrintedReply, Reply, SitsReply, StemsReply, TargetsReply};
use border_core::{
    mortarbee_assemble as assemble, mortarbee_check as check,
    mortarbee_optimize_jumps as optimize_jumps, mortarbee_positions as positions_of,
    mortarbee_print_run as print_run, mortarbee_refusal_line as refusal_line,
    mortarbee_stems as optimize_stems, mortarbee_targets as targets_of,
    mortarbee_text as readable_text, mortarbee_where_sits as where_sits,
};

// `assemble`, for C.
#[unsafe(no_mangle)]
pub extern "C" fn mortarbee_assemble(listing: &[u8], image: &mut [u8]) -> Reply
    ensures { Assembles listing.now result image.old image.new }
{
    assemble(listing, image)
}

// `optimize_jumps`, for C.
#[unsafe(no_mangle)]
pub extern "C" fn mortarbee_optimize_jumps(
    comments: u8,
    callf: u8,
    folds: u8,
    listing: &[u8],
    out: &mut [u8],
    image: &mut [u8],
) -> Reply
    ensures { let asked = asked_by comments callf folds in
        let end = run asked listing.now (length out.old) (length image.old) in
        Ends end result out.old image.old out.new image.new }
{
    optimize_jumps(comments, callf, folds, listing, out, image)
}

// `print_run`, for C.
#[unsafe(no_mangle)]
pub extern "C" fn mortarbee_print_run(
    comments: u8,
    callf: u8,
    folds: u8,
    listing: &[u8],
    page: &mut [u8; 62482],
    image: &mut [u8; 65536],
) -> PrintedReply
    ensures { Prints (asked_by comments callf folds) listing.now result page.old image.old
        page.new image.new }
{
    print_run(comments, callf, folds, listing, page, image)
}

// The 7E line of four numbers, for C.
#[unsafe(no_mangle)]
pub extern "C" fn mortarbee_refusal_line(
    number: u8,
    place: u16,
    argument: u8,
    amount: i32,
    line: &mut [u8; 19],
)
    ensures { line.new ≡ refused_line (record { number = number; place = place; argument = argument; amount = amount }) }
{
    refusal_line(number, place, argument, amount, line);
}

// Whether a text keeps the form of a listing, for C.
#[unsafe(no_mangle)]
pub extern "C" fn mortarbee_check(listing: &[u8]) -> CountedReply
    ensures { SaysCounted result (counted_as (read_listing listing.now)) }
{
    check(listing)
}

// `where_sits`, for C.
#[unsafe(no_mangle)]
pub extern "C" fn mortarbee_where_sits(listing: &[u8], n: usize) -> SitsReply
    ensures { SaysSits result (sits_as (sits listing.now n)) }
{
    where_sits(listing, n)
}

// `all_sit`, for C.
#[unsafe(no_mangle)]
pub extern "C" fn mortarbee_positions(listing: &[u8], positions: &mut [u32; 1025]) -> CountedReply
    ensures { Positions listing.now result positions.old positions.new }
{
    positions_of(listing, positions)
}

// `readable_text`, for C. `listing` is the text's length; `rewrites` and `image` are 0.
#[unsafe(no_mangle)]
pub extern "C" fn mortarbee_text(listing: &[u8], text: &mut [u8]) -> Reply
    ensures { Reads listing.now result text.old text.new }
{
    readable_text(listing, text)
}

// `targets`, for C.
#[unsafe(no_mangle)]
pub extern "C" fn mortarbee_targets(
    comments: u8,
    callf: u8,
    folds: u8,
    listing: &[u8],
    out: &mut [u8],
) -> TargetsReply
    ensures { Aims (asked_by comments callf folds) listing.now result out.old out.new }
{
    targets_of(comments, callf, folds, listing, out)
}

// `optimize_stems`, for C.
#[unsafe(no_mangle)]
pub extern "C" fn mortarbee_stems(
    comments: u8,
    callf: u8,
    folds: u8,
    listing: &[u8],
    out: &mut [u8],
    image: &mut [u8],
    list: &mut [u8],
) -> StemsReply
    ensures { let asked = asked_by comments callf folds in
        HandsOut asked listing.now result out.old image.old list.old
        out.new image.new list.new }
{
    optimize_stems(comments, callf, folds, listing, out, image, list)
}
