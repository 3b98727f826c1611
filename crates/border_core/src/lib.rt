// The entries for C and Rust of the main job: a listing judged, assembled, rewritten and printed, where its statements sit, how they read, what its
// transfers name. A library exports nothing: `border_core_c` hands them on in an archive of their own, `border` in that of all entries. Nothing is asked
// of the caller, and every lent byte is accounted for.
#![tactic(auto)]

mod aims; // what the transfers name
mod faults; // a refusal as four numbers, and settings as three bytes
mod pages; // what the program prints
mod replies; // answers as structs of numbers
mod running; // a listing judged, assembled or rewritten
mod stems; // C-13: where the statements of the output stem from
mod texts; // C-16

pub use aims::{TargetsReply, mortarbee_targets};
pub use faults::{Told, settings_of, told_of};
pub use pages::{PrintedReply, mortarbee_print_run, mortarbee_refusal_line};
pub use replies::{CountedReply, Reply, SitsReply, reply_of};
pub use running::{
    mortarbee_assemble, mortarbee_check, mortarbee_optimize_jumps, mortarbee_positions,
    mortarbee_where_sits,
};
pub use stems::{StemsReply, mortarbee_stems};
pub use texts::mortarbee_text;
