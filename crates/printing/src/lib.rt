// The program's answer to a text as the bytes that it prints: the new listing and the last line on a page, or a refusal's 7E line.
#![tactic(auto)]

ghost use Rattle.std.specs.Prelude.{◌≡◌, ◌≤◌, length};
ghost use Rattle.printing.specs.Page.{Lent, PrintedRun, page_length, refusal_line};

use entries::optimize_jumps;
use fault::fault_of;
use output::{done_line, refused_line};
use rules::{Refusal, Settings, Sizes};

// The run has the page's front for its listing: what lies behind is kept for the last line.
fn run_into(
    asked: Settings,
    listing: &[u8],
    page: &mut [u8],
    image: &mut [u8],
) -> Result<Sizes, Refusal>
    requires { 62469 ≤ length page.old }
    ensures { Lent asked listing.now page.old image.old result page.new image.new }
{
    optimize_jumps(asked, listing, &mut page[..62469], image)
}

// All that the program prints of an accepted text stands at the front of the page. On refusal no lent byte changes.
pub fn print_run(
    asked: Settings,
    listing: &[u8],
    page: &mut [u8; 62482],
    image: &mut [u8; 65536],
) -> Result<Sizes, Refusal>
    ensures { PrintedRun asked listing.now page.old image.old result
        page.new image.new }
{
    let sizes = run_into(asked, listing, page, image)?;
    done_line(sizes.rewrites, sizes.image, &mut page[sizes.listing..]);
    Ok(sizes)
}

// How many bytes of the page an answer fills.
pub fn page_length(answer: Result<Sizes, Refusal>) -> usize
    ensures { (result ≡ page_length answer) × (result ≤ 62482) }
{
    answer.map_or(0, |sizes| sizes.listing.min(62469) + 13)
}

// The 7E line: the place in two bytes and the argument's place in one, which hold those of every refusal of a run.
pub fn refusal_line(r: Refusal) -> [u8; 19]
    ensures { (result ≡ refusal_line r) × (19 ≡ length result) }
{
    let f = fault_of(r);
    let mut line = [0u8; 19];
    refused_line(
        f.number,
        f.place % 65536,
        f.argument % 256,
        f.amount,
        &mut line,
    );
    line
}
