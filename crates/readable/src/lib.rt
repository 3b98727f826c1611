// C-16: a listing for people, one line a statement.
#![tactic(auto)]

mod lines; // the lines of the statements in the tables
mod entry; // what is refused, and the whole text

pub use entry::readable_text;
