// A shipped image held against what its long listing shrinks to.
#![tactic(auto)]

use rules::{Address, Place};

mod comparing; // two images, byte by byte
mod holding; // an end form's image, and the finding
mod entry; // the public entry

pub use entry::audit;

// Both are the same; or the first address at which they are not: both have a byte there, or only the wanted image has, or only the shipped
// one. With both bytes, the wanted one first, and the origin of the wanted one, if it has one: its statement, and the offset in that.
#[derive(Clone, Copy)]
pub enum Finding {
    Same,
    Differs(Address, u8, u8, Option<(Place, usize)>),
    Short(Address, Option<(Place, usize)>),
    Long(Address),
}
