// C-19: numbers and names at the front of a text, and the bytes of a tree in a room of 32.
#![tactic(auto)]

pub mod lexing; // bytes, spaces, digits
pub mod storing; // a tree's bytes, in prefix order
pub mod operands; // numbers and names

// A number or an expression at the front of a text: how many bytes it takes, and its value or where its bytes end in the room, 33 where
// they have none; or the byte that no good line could have there.
pub type Found = Result<(usize, usize), usize>;
