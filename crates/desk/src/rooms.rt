// The front of a room, and a byte as digits.
ghost use Rattle.desk.specs.Counts.{IsPrefixLen};

use std::io;

// At most as much as a room has.
pub fn part(n: usize, room: &[u8]) -> usize
    ensures { IsPrefixLen result room.now }
{
    n.min(room.len())
}

// A digit of the sixteen.
fn digit(x: u8) -> u8 {
    match x {
        0..10 => b'0' + x,
        10..16 => b'A' + (x - 10),
        _ => b'?',
    }
}

// A byte as two digits on standard output.
pub fn put_pair(rt: &impl Print, b: u8) -> io::Result<()> {
    let pair = [digit(b / 16), digit(b % 16)];
    rt.write_all(&pair)
}

// One digit on standard output.
pub fn put_digit(rt: &impl Print, x: u8) -> io::Result<()> {
    let one = [digit(x)];
    rt.write_all(&one)
}
