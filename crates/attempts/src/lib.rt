// Rewrites that are tried: one edit in place, and undone where the candidate does not count.
#![tactic(auto)]

mod accepting; // whether a candidate counts
mod deepest; // how deep inner labels reach
mod folds; // the two shapes of a fold
mod reach; // forms that cannot reach their target
mod shrinks; // a shorter form

pub use accepting::acceptable;
pub use deepest::fill_deepest;
pub use folds::{put_three, put_two, try_inverted, try_trampoline};
pub use shrinks::try_form;
