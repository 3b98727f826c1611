// The public entries: nothing is asked of the caller, and every lent byte is accounted for.
#![tactic(auto)]

mod assembling; // a listing to its image
mod optimizing; // a listing to its end form

pub use assembling::assemble;
pub use fault::{Fault, fault_of};
pub use optimizing::{optimize_jumps, optimize_stems};
