// C-19: the lines that go on item by item: data and comments.
#![tactic(auto)]

pub mod items; // .byte and .word
pub mod comments; // .comment
