// C-19: lines of a fixed number of parts: labels, variables, orgs and pads, to frames.
#![tactic(auto)]

pub mod ends; // the end of a line, numbers, the first bytes of a frame
pub mod names; // labels and variables
pub mod numbers; // .org and .align
