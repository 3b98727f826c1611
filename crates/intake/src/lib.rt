// C-19: a whole text of people's lines to a listing of the old form.
#![tactic(auto)]

mod lines; // one line: its refusal, or its frame
mod walks; // all lines: how long the listing will be, and the listing
mod entry; // 12, and the whole

pub use entry::read_people;
