// C-21: what a byte begins, and what an instruction holds of its arguments.
#![tactic(auto)]

pub mod opcodes;
pub mod operands;
