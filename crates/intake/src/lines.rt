// The line that a text begins with: its refusal, in the order in which a line is judged, or its frame.
ghost use Rattle.std.specs.Prelude.{◌≡◌, ◌≤◌, length};
ghost use Rattle.listing.specs.Lines.{line_length};
ghost use Rattle.intake.specs.Turns.{Turned};

use listing::line_length;
use people::read_line;
use rules::{Place, Refusal};

// The line at place i, with `sum` characters of the listing before it: where it ends, its line feed included, and how many bytes its
// frame has, which is left in the room; or why it is refused. A match: `map_err` with `?` left the closure's result open in the proof.
pub fn judge_line(
    text: &[u8],
    i: usize,
    sum: usize,
    room: &mut [u8; 120],
) -> Result<(usize, usize), Refusal>
    requires { (sum ≤ 49152) × (length room.old ≡ 120) }
    ensures { Turned i sum text.now room.new result }
{
    if i >= 1024 {
        return Err(Refusal::Limit(Place(i)));
    }
    let n = line_length(text);
    if n > 1024 {
        return Err(Refusal::Limit(Place(i)));
    }
    match read_line(&text[..n], room) {
        Err(c) => Err(Refusal::Column(Place(i), c as i32)),
        Ok(to) => {
            if n == text.len() {
                return Err(Refusal::Column(Place(i), n as i32));
            }
            if to > 120 {
                return Err(Refusal::Limit(Place(i)));
            }
            if sum + 2 * to > 49152 {
                return Err(Refusal::Limit(Place(i)));
            }
            Ok((n + 1, to))
        }
    }
}
