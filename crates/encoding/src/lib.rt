// Document 01, "Encoding": the range of each operand, and the bytes of an instruction.
#![tactic(auto)]

pub mod encode;
pub mod operands;
