// C-13: exact differences of two listings, as lines 70 to 73.
#![tactic(auto)]

pub mod entry; // the entry: what is refused, in its order, and then the text
mod lines; // one line of the text
mod walks; // all lines: a first walk for the length, a second that writes

pub use entry::{Whose, differences};
