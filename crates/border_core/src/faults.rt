// What each answer begins with: a refusal's number, its place, for 8 to 11 the argument's place and the number at fault. And settings.
ghost use Rattle.std.specs.Prelude.{◌≡◌};
ghost use Rattle.rules.specs.Refusals.{fault_of};
ghost use Rattle.border_core.specs.Replies.{asked_by, Tells};

use entries::fault_of;
use rules::{Refusal, Settings};

#[derive(Clone, Copy)]
pub struct Told {
    pub number: u64,
    pub place: u64,
    pub argument: u64,
    pub amount: i64,
}

pub fn told_of(r: Refusal) -> Told
    ensures { Tells result (fault_of r) }
{
    let f = fault_of(r);
    Told {
        number: f.number as u64,
        place: f.place as u64,
        argument: f.argument as u64,
        amount: f.amount as i64,
    }
}

// The settings that three bytes ask for: 0 is no, any other yes.
pub fn settings_of(comments: u8, callf: u8, folds: u8) -> Settings
    ensures { result ≡ asked_by comments callf folds }
{
    Settings {
        comments: comments != 0,
        callf: callf != 0,
        folds: folds != 0,
    }
}
