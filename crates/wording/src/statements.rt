// The line of a statement, from its frame.
ghost use Rattle.std.specs.Prelude.{◌≡◌, length};
ghost use Rattle.wording.specs.Writing.{Framed, Lined};

use crate::instructions::instruction_line;
use crate::lines::{comment_line, data_line, label_line, org_line, pad_line, variable_line};

// The line, without its line feed, at the front of the room; where it ends.
pub fn line(frame: &[u8], out: &mut [u8; 1024]) -> usize
    requires { (length out.old ≡ 1024) × Framed frame.now }
    ensures { Lined frame.now out.old out.new result }
{
    match frame[0] {
        1 => instruction_line(frame, out),
        2 => label_line(frame, out),
        3 => variable_line(frame, out),
        4 => comment_line(frame, out),
        5 => org_line(frame, out),
        8 => pad_line(frame, out),
        _ => data_line(frame, out),
    }
}
