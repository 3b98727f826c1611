// The lines of the statements in the tables: how long they are, and the lines themselves in a lent room.
ghost use Rattle.std.specs.Prelude.{◌≡◌, ◌+◌, ◌*◌, ◌≤◌, ◌<◌, length};
ghost use Rattle.listing.specs.Tables.{input_at, input_of, Held};
ghost use Rattle.digits.specs.Digits.{laid};
ghost use Rattle.readable.specs.Readable.{line_of, text_of};
ghost use Rattle.readable.specs.Writing.{Stands};

use listing::Starts;
use rules::Place;
use slots::frame_in;
use wording::line;

// The line of statement i of `count`, at the front of a room; where it ends.
fn line_at(frames: &[u8], starts: &Starts, count: usize, i: usize, room: &mut [u8; 1024]) -> usize
    requires { Held frames.now starts.now count × (i < count) × (length room.old ≡ 1024) }
    ensures { Stands (input_at frames.now starts.now i) room.new result
        × (length room.new ≡ 1024) }
{
    let frame = frame_in(frames, starts, count, Place(i));
    line(frame, room)
}

// How many bytes all lines have, with their line feeds.
pub fn text_length(frames: &[u8], starts: &Starts, count: usize) -> usize
    requires { Held frames.now starts.now count }
    ensures { result ≡ length (text_of (input_of frames.now starts.now count)) }
{
    let mut room = [0u8; 1024];
    let mut sum = 0;
    for i in 0..count {
        sum += line_at(frames, starts, count, i, &mut room) + 1;
    }
    sum
}

// The line of statement i and its line feed, from `at` on; how long it is.
fn put_line(
    frames: &[u8],
    starts: &Starts,
    count: usize,
    i: usize,
    out: &mut [u8],
    at: usize,
) -> usize
    requires { Held frames.now starts.now count × (i < count)
        × (at + length (line_of (input_at frames.now starts.now i)) ≤ length out.old) }
    ensures { let x = line_of (input_at frames.now starts.now i) in
        (out.new ≡ laid out.old at x) × (result ≡ length x) }
{
    let mut room = [0u8; 1024];
    let n = line_at(frames, starts, count, i, &mut room);
    out[at..at + n].copy_from_slice(&room[..n]);
    out[at + n] = b'\n';
    n + 1
}

// All lines, from the front on.
pub fn write_lines(frames: &[u8], starts: &Starts, count: usize, out: &mut [u8])
    requires { Held frames.now starts.now count
        × (length (text_of (input_of frames.now starts.now count)) ≤ length out.old) }
    ensures { out.new
        ≡ laid out.old 0 (text_of (input_of frames.now starts.now count)) }
{
    let mut at = 0;
    for i in 0..count {
        at += put_line(frames, starts, count, i, out, at);
    }
}
