// C-22: a damaged listing salvaged.
#![tactic(auto)]

pub mod entry;
mod walks; // over the lines, first to measure and then to write

pub use walks::Extent;
