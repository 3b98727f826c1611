// Expressions, as src/expression.rs has them: operators on values, reading, worth, and the names that they hold. The boxed
// trees stay as bytes of the frame; each function here takes the slice that begins with the expression.
#![tactic(auto)]

mod fields; // the numbers and names that leaves hold
mod labels; // the names that move with the code
mod naming; // the names in an expression
mod reading; // where an expression ends
mod values; // the operators
mod worth; // what an expression is worth

pub use labels::{defines, holds_label, is_seen};
pub use naming::{count_links, is_bare};
pub use reading::{read_expr, tag_of, width};
use rules::Unvalued;
pub use values::{apply_one, apply_two};
pub use worth::linked_worth;

// Why bytes do not read: refusal 2, or 1.
#[derive(Clone, Copy)]
pub enum Unread {
    TooLong,
    Malformed,
}

// What the bytes of an expression are worth, and how many they are.
#[derive(Clone, Copy)]
struct Valued {
    value: Result<i32, Unvalued>,
    taken: usize,
}

// How many names were found, in how many bytes.
#[derive(Clone, Copy)]
struct Tally {
    found: usize,
    taken: usize,
}
