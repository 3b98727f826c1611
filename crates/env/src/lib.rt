// Names by context, positions and variables, as src/env.rs and `compute_names` have them: the maps become tables by place, and each pass over
// the statements ends at its first refusal.
#![tactic(auto)]

mod contexts; // the context of each place
mod layout; // positions: 5 and 6
mod links; // the place that each name means
mod moving; // which names move with the code
mod names; // the name that each place defines: 3
mod settling; // positions and values in one pass
mod variables; // what names stand for: 4 and 7

pub use contexts::fill_contexts;
pub use layout::lay_out;
pub use links::fill_links;
pub use moving::fill_moving;
pub use names::{fill_names, no_name_twice};
pub use settling::settle_all;
pub use variables::define_all;

// Names from here on are local.
const LOCAL: u16 = 0x8000;

// What stands in a table of names where a place has none: a number, as the table is fixed memory (D-137).
const NO_NAME: u32 = 65536;
