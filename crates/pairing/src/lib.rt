// C-13: which statements of two listings are paired: by a list of entries, or where the listings begin and end alike.
#![tactic(auto)]

mod entries; // a list of entries
mod found; // a common beginning and a common end
mod lines; // where the lines of a listing begin

pub use entries::{entry_count, take_entries};
pub use found::pair_alike;
pub use lines::{find_lines, line_at, same_bytes, statements_of};
