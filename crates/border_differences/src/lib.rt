// C-13 for the border: the differences of two listings, with their answer as a struct of numbers.
#![tactic(auto)]

mod differing; // the differences

pub use differing::{DiffersReply, tell_differences};
