// One line by itself: the reader of listings is given a listing of this line alone.
ghost use Rattle.std.specs.Prelude.{◌≡◌};
ghost use Rattle.rules.specs.Listing.{old_form, new_form, read_listing};
ghost use Rattle.listing.specs.Form.{form_of};
ghost use Rattle.listing.specs.Lines.{first_line};
ghost use Rattle.lines.specs.Alone.{by_itself};
ghost use Rattle.lines.specs.Turns.{Numbered, one_or_two, OneLine};

use crate::texts::put_text;
use listing::{new_form, read_listing};
use rules::Refusal;

// A listing is refused with 1 or 2 when it is read.
fn one_or_two(r: Refusal) -> u8
    ensures { result ≡ one_or_two r }
{
    match r {
        Refusal::Limit(_) => 2,
        _ => 1,
    }
}

// The number that a listing is refused with when it is read, or 0.
fn number_of(text: &[u8]) -> u8
    ensures { Numbered (read_listing text.now) result }
{
    let mut frames = [0u8; 28672];
    let mut starts = [0u16; 4100];
    let mut lines = [0u32; 1024];
    match read_listing(text, &mut frames, &mut starts, &mut lines) {
        Ok(_) => 0,
        Err(r) => one_or_two(r),
    }
}

// A line of the old form; 7D02 would mark a form, and is no frame.
fn judge_old(line: &[u8]) -> u8
    requires { OneLine line.now }
    ensures { Numbered (by_itself old_form (first_line line.now)) result }
{
    if new_form(line) { 1 } else { number_of(line) }
}

// A line of the new form is read behind a mark; over 248 characters it is 2.
fn judge_new(line: &[u8]) -> u8
    requires { OneLine line.now }
    ensures { Numbered (by_itself new_form (first_line line.now)) result }
{
    let n = line.len();
    if 249 < n {
        return 2;
    }
    let mut page = [0u8; 254];
    put_text(&mut page, 0, b"7D02\n");
    put_text(&mut page, 5, line);
    let end = 5 + n;
    number_of(&page[..end])
}

// The number that the line is refused with by itself, or 0.
pub fn judge(line: &[u8], marked: bool) -> u8
    requires { OneLine line.now }
    ensures { Numbered (by_itself (form_of marked) (first_line line.now)) result }
{
    if marked {
        judge_new(line)
    } else {
        judge_old(line)
    }
}
