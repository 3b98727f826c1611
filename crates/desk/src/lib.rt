// Many listings in one run: blocks of standard input that a line `==` ends, and the answer to each.
#![tactic(auto)]

mod answers; // one listing
mod blocks; // where a block ends
mod reading; // all that a reader has
mod rooms; // the front of a room, and digits
mod switches; // a listing under the other settings

ghost use Rattle.std.specs.Prelude.{◌≡◌, length};

use answers::put_answer;
pub use answers::{put_page, put_refusal};
use blocks::{behind, block_end};
pub use reading::read_full;
use rules::Settings;
use std::io;
pub use switches::numbered;

// The contract gives the length alone, which lending it needs.
fn room_for_all() -> [u8; 262144]
    ensures { 262144 ≡ length result }
{
    [0; 262144]
}

// Answers all of standard input, up to 262,143 characters: of a longer one none, so that no listing is cut. `on_all_sides` tries each listing also with
// rooms that are too short, and under the other settings.
pub fn answer_all(
    rt: &(impl Input + Print + Eprint),
    asked: Settings,
    on_all_sides: bool,
) -> io::Result<()> {
    let mut text = room_for_all();
    let n = read_full(&mut rt.reader(), &mut text)?;
    if n == 262144 {
        return eprintln!(rt;
            "mortarbee: a batch is at most 262,143 characters; nothing was answered"
        );
    }
    answer_blocks(rt, asked, &text[..n], on_all_sides)
}

fn answer_blocks(
    rt: &impl Print,
    asked: Settings,
    text: &[u8],
    on_all_sides: bool,
) -> io::Result<()> {
    let mut at = 0;
    // block by block
    while at < text.len() {
        let rest = &text[at..];
        let n = block_end(rest);
        put_answer(rt, asked, &rest[..n], on_all_sides)?;
        at = behind(at, n, text.len());
    }
    Ok(())
}
