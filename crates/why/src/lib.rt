// Why forms stay: each shorter form and each fold that is tried on the end form of a listing, and what stands in its way: a line (75) each.
#![tactic(auto)]

mod candidates; // an edit in a copy of the state, and what is said of it
mod entry; // the public entry
mod lines; // an attempt as a line
mod telling; // all of them
mod tries; // an attempt at a place

pub use entry::why;
