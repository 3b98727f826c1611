// The entries for C and Rust. Nothing is asked of the caller, and every lent byte is accounted for.
#![tactic(auto)]

mod answering; // an audit, the rewrites, and why something stays
mod differing; // C-13
mod exported; // C-21, C-24
mod handed; // those of border_core
mod placing; // the map of both images
mod reading; // C-19
mod replies; // answers of the store, as structs of numbers
mod salvaging; // C-22, with its answer

pub use answering::{mortarbee_audit, mortarbee_steps, mortarbee_why};
pub use border_answers::{AuditReply, StepsReply};
pub use border_core::{CountedReply, PrintedReply, Reply, SitsReply, StemsReply, TargetsReply};
pub use border_differences::DiffersReply;
pub use border_read::ReadReply;
pub use border_walks::MapReply;
pub use differing::mortarbee_differences;
pub use exported::{
    mortarbee_add_edition, mortarbee_drop_old, mortarbee_get_edition, mortarbee_get_newest,
    mortarbee_optimize_jumps_under, mortarbee_read_back, mortarbee_show_place,
};
pub use handed::{
    mortarbee_assemble, mortarbee_check, mortarbee_optimize_jumps, mortarbee_positions,
    mortarbee_print_run, mortarbee_refusal_line, mortarbee_stems, mortarbee_targets,
    mortarbee_text, mortarbee_where_sits,
};
pub use placing::mortarbee_map;
pub use reading::mortarbee_read;
pub use replies::{FoundReply, NumberedReply, ShownReply};
pub use salvaging::{SavedReply, mortarbee_salvage};
