// What each transfer of the output names, beside what its target named in the input: a line (74) each, marked where it needs eyes.
#![tactic(auto)]

mod aims; // what a target comes to
mod entry; // the public entry
mod filling; // of each transfer of a program
mod lines; // a transfer as a line
mod writing; // transfer by transfer

pub use entry::targets;

// By place, what the target of the transfer there comes to: its value in four bytes, the statement's place in two and the offset in two.
pub type Aims = [[u8; 8]; 1024];

// How many bytes of lines there are, for how many transfers, and how many of them are marked.
#[derive(Clone, Copy)]
pub struct Counts {
    pub bytes: usize,
    pub transfers: usize,
    pub marked: usize,
}
