// The listing for people, written: bytes, numbers, names and expressions, in a room of 1,024 bytes. Where these are too few the end is 1,025.
#![tactic(auto)]

mod pieces; // bytes, numbers, names
mod terms; // expressions

pub use pieces::{digits, put, put_name};
pub use terms::term;

// How many bytes of the frame an expression took, and where its text ends.
#[derive(Clone, Copy)]
pub struct Went {
    pub taken: usize,
    pub to: usize,
}
