// C-22: one line of a damaged text by itself, and what comes out for it.
#![tactic(auto)]

mod judging; // the number that refuses it
mod standing; // what comes out
mod texts; // pieces of text stored in a room

pub use standing::{Turn, put_standing, take_turn};
pub use texts::{put_left, put_replaced};
