// The walk over a text: a first one for the count and the length of what comes out, a second that writes.
ghost use Rattle.std.specs.Prelude.{◌≡◌, length};
ghost use Rattle.digits.specs.Digits.{laid};
ghost use Rattle.intake.specs.Turns.{Measured, Roomy, Writes};

use crate::lines::judge_line;
use digits::put_line;
use rules::Refusal;

// How many statements a text has, and how many characters its listing, line feeds included; or the first line's refusal.
pub fn measure(text: &[u8]) -> Result<(usize, usize), Refusal>
    ensures { Measured text.now result }
{
    let mut room = [0u8; 120];
    let mut q = 0;
    let mut i = 0;
    let mut sum = 0;
    // line by line: q goes on by a line's length
    while q < text.len() {
        let (end, n) = judge_line(&text[q..], i, sum, &mut room)?;
        q += end;
        i += 1;
        sum += 2 * n;
    }
    Ok((i, sum + i))
}

// The listing of a text that is not refused, from the front of a room that holds it.
pub fn write_lines(text: &[u8], listing: &mut [u8])
    requires { Roomy text.now (length listing.old) }
    ensures { Writes text.now listing.old listing.new }
{
    let mut room = [0u8; 120];
    let mut q = 0;
    let mut i = 0;
    let mut sum = 0;
    // line by line: q goes on by a line's length
    while q < text.len() {
        let Ok((end, n)) = judge_line(&text[q..], i, sum, &mut room) else {
            return;
        };
        put_line(listing, sum + i, &room[..n]);
        q += end;
        i += 1;
        sum += 2 * n;
    }
}
