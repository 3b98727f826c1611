// Change jumps, and the targets that become inner labels: rules 1 and 2 of the rewriting.
#![tactic(auto)]

mod anchoring; // which targets become inner labels
mod changing; // which jumps are change jumps

pub use anchoring::{anchor, value_origin};
pub use changing::is_change_jump;

// What the tables hold of a target: its inner label's owner and offset; an owner of 1024 is none.
#[derive(Clone, Copy)]
struct Label {
    owner: u16,
    offset: u16,
}
