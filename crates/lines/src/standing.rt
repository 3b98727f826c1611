// What becomes of a line: where it ends, what comes out for it, and what is told of it.
ghost use Rattle.std.specs.Prelude.{◌≡◌, [], ◌∷◌, ◌++◌, ◌+◌, ◌*◌, ◌<◌, ◌≤◌, min, length, take};
ghost use Rattle.rules.specs.Programs.{comment};
ghost use Rattle.rules.specs.Output.{frame_in, line_of};
ghost use Rattle.listing.specs.Form.{form_of};
ghost use Rattle.listing.specs.Lines.{first_line};
ghost use Rattle.digits.specs.Digits.{laid};
ghost use Rattle.lines.specs.Alone.{by_itself, standing};
ghost use Rattle.lines.specs.Turns.{line_end, Numbered, OneLine, TurnOf};

use crate::judging::judge;
use crate::texts::put_text;
use digits::put_line;
use listing::{line_bytes, take_line};

// The first line of a text: where it ends, its line feed included, the number that it is refused with by itself, or 0, and how many characters come
// out for it.
#[derive(Clone, Copy)]
pub struct Turn {
    pub end: usize,
    pub number: u8,
    pub length: usize,
}

fn line_end(text: &[u8]) -> usize
    ensures { (result ≡ line_end text.now) × (result ≤ length text.now) }
{
    let rest = take_line(text);
    text.len() - rest.len()
}

// How many characters of a line its comment holds.
fn kept(line: &[u8]) -> usize
    requires { OneLine line.now }
    ensures { (result ≡ length (take 119 (first_line line.now).chars)) × (result ≤ length line.now) }
{
    let chars = match line {
        [chars @ .., b'\n'] => chars.len(),
        _ => line.len(),
    };
    chars.min(119)
}

// How many characters come out for a line, the line feed apart.
fn stands_length(line: &[u8], marked: bool, number: u8) -> usize
    requires { OneLine line.now × Numbered (by_itself (form_of marked) (first_line line.now)) number }
    ensures { (result ≡ length (standing (form_of marked) (first_line line.now))) × (result ≤ 248) }
{
    if number == 0 {
        line.len() - 1
    } else {
        2 * (1 + line_bytes(marked) + kept(line))
    }
}

pub fn take_turn(text: &[u8], marked: bool) -> Turn
    requires { 0 < length text.now }
    ensures { TurnOf (form_of marked) text.now result }
{
    let end = line_end(text);
    let line = &text[..end];
    let number = judge(line, marked);
    let length = stands_length(line, marked, number);
    Turn {
        end,
        number,
        length,
    }
}

// The comment that replaces a line, from `at` on.
fn put_comment(line: &[u8], marked: bool, out: &mut [u8], at: usize)
    requires { OneLine line.now
        × (let s = take 119 (first_line line.now).chars in
        at + length (line_of (frame_in (form_of marked) 0 (comment s))) ≤ length out.old) }
    ensures { let s = take 119 (first_line line.now).chars in
        out.new ≡ laid out.old at (line_of (frame_in (form_of marked) 0 (comment s))) }
{
    let mut frame = [0u8; 124];
    let k = kept(line);
    let from = 1 + line_bytes(marked);
    frame[0] = 4;
    put_text(&mut frame, from, &line[..k]);
    let end = from + k;
    put_line(out, at, &frame[..end]);
}

// What comes out for a line, from `at` on.
pub fn put_standing(line: &[u8], marked: bool, number: u8, out: &mut [u8], at: usize)
    requires { OneLine line.now × Numbered (by_itself (form_of marked) (first_line line.now)) number
        × (at + length (standing (form_of marked) (first_line line.now)) < length out.old) }
    ensures { out.new
        ≡ laid out.old at (standing (form_of marked) (first_line line.now) ++ (10 ∷ [])) }
{
    if number == 0 {
        put_text(out, at, line);
    } else {
        put_comment(line, marked, out, at);
    }
}
