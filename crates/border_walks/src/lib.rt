// The answers about walks for C and Rust: the map, as a struct of numbers.
#![tactic(auto)]

mod maps; // where each instruction and each piece of data stands in both images

pub use maps::{MapReply, map_answer};
