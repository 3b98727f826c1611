// C-24: settings kept by edition, in lent room: 32 places of five bytes. What they mean is said in specs/.
#![tactic(auto)]

use rules::Settings;

mod adding; // a new edition
mod asking; // an edition, or the newest
mod dropping; // old editions
mod judging; // 12 and 19
mod places; // five bytes to a setting, and back
mod showing; // place by place
mod testing; // tests of one setting, and its switches

pub use adding::add_edition;
pub use asking::{get_edition, get_newest};
pub use dropping::drop_old;
pub use showing::show_place;

// What a place of the store holds. `switches` has a bit for each: 1 keeps comments, 2 lets Callf shrink, 4 lets folds run.
#[derive(Clone, Copy)]
pub struct Setting {
    pub family: u16,
    pub edition: u16,
    pub switches: u8,
}

// An edition of a family: its number, and the settings of a run under it.
#[derive(Clone, Copy)]
pub struct Edition {
    pub number: u16,
    pub settings: Settings,
}
