// The listing for people, written: the line of a statement, in a room of 1,024 bytes. Where these are too few the end is 1,025.
#![tactic(auto)]

mod words; // mnemonics and dot words
mod lines; // the lines of all but instructions
mod instructions; // the lines of instructions
mod statements; // the line of any statement

pub use statements::line;
