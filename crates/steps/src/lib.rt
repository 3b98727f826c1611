// The rewrites of a run in their order, one line (76) each.
#![tactic(auto)]

mod entry; // the public entry
mod lines; // a rewrite as a line
mod seats; // what stands in a slot, and the first place that changed
mod walking; // rewrite by rewrite

pub use entry::steps;

// What stands in a slot, as far as a rewrite changes it: the form, 70 where it has no instruction, and the place whose target it carries.
#[derive(Clone, Copy, PartialEq, Eq)]
pub struct Seat {
    pub form: u8,
    pub carried: u16,
}
