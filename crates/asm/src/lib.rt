// What is refused of a program in slots, 3 to 11 in document 01's order, as src/asm.rs has `assemble`.
#![tactic(auto)]

mod candidates; // the verdict on a rewritten program, as a test
mod judging; // the verdict
mod names; // 3, then 5 and 6, then the variables
mod origins; // the statement that a byte belongs to
mod start; // the slots of a listing as read

pub use candidates::assembles;
pub use judging::{judge, judge_linked};
pub use names::lay_and_define;
pub use origins::{address_of, origin_of};
pub use start::start_state;
