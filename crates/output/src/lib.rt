// Slots to text: each statement that is left as a line of upper-case digit pairs, and the last line.
#![tactic(auto)]

mod last; // the last line
mod lines; // how long each slot's line is, and the text
mod showing; // which slots are shown
mod stems; // which slots the lines stem from
mod text; // the lines themselves

pub use last::{bits, done_line, refused_line};
pub use lines::{line_length_at, text_length};
pub use showing::show;
pub use stems::{count_stems, write_stems};
pub use text::write_text;
