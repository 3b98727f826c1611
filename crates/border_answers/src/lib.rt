// The answers about the rewriting for C and Rust: an audit, the rewrites, and why something stays, each as a struct of numbers.
#![tactic(auto)]

mod audits; // an image held against a listing
mod rewrites; // the rewrites one by one
mod whys; // why something stays

pub use audits::{AuditReply, audit_answer};
pub use rewrites::{StepsReply, steps_answer};
pub use whys::why_answer;
