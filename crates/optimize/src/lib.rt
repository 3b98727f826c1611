// Rule 6 of the rewriting: which rewrite comes first, and again until none remains.
#![tactic(auto)]

mod rewriting; // one rewrite, and all
mod scanning; // the first fold
mod shrinking; // the first shrink

pub use rewriting::{optimize, rewrite};
