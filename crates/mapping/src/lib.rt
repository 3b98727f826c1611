// Where each instruction and each piece of data stands in the long image and in the short one: a row (78, or 79 where it was dropped) each.
#![tactic(auto)]

mod entry; // the public entry
mod laying; // the addresses of a program in slots
mod rows; // one row
mod writing; // row by row

pub use entry::mapping;

// How many bytes of lines there are, and for how many rows.
#[derive(Clone, Copy)]
pub struct Counts {
    pub bytes: usize,
    pub rows: usize,
}
