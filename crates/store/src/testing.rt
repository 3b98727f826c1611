// Tests of one setting, and its switches.
ghost use Rattle.std.specs.Prelude.{◌≡◌, cond, max, eqb};
ghost use Rattle.store.specs.Switches.{switch, switches_of, settings_of};
ghost use Rattle.store.specs.Store.{is_free, is_of, in_range, is_old};

use crate::Setting;
use rules::Settings;

pub fn is_free(s: Setting) -> bool
    ensures { result ≡ is_free s }
{
    s.family == 0 && s.edition == 0 && s.switches == 0
}

pub fn in_range(s: Setting) -> bool
    ensures { result ≡ in_range s }
{
    is_free(s) || (s.edition >= 1 && s.switches < 8)
}

pub fn is_of(s: Setting, family: u16, edition: u16) -> bool
    ensures { result ≡ is_of family edition s }
{
    s.family == family && s.edition == edition
}

// An edition of the family below its newest, which is `top`.
pub fn is_old(s: Setting, family: u16, top: u16) -> bool
    ensures { result ≡ is_old family top s }
{
    s.family == family && s.edition >= 1 && s.edition < top
}

// The newer of `top` and this setting, if it is the family's.
pub fn newer(s: Setting, family: u16, top: u16) -> u16
    ensures { result ≡ cond (eqb s.family family) (max s.edition top) top }
{
    if s.family == family {
        s.edition.max(top)
    } else {
        top
    }
}

fn switch(on: bool, worth: u8) -> u8
    ensures { result ≡ switch on worth }
{
    if on { worth } else { 0 }
}

pub fn switches_of(s: Settings) -> u8
    ensures { result ≡ switches_of s }
{
    switch(s.comments, 1) + switch(s.callf, 2) + switch(s.folds, 4)
}

pub fn settings_of(w: u8) -> Settings
    ensures { result ≡ settings_of w }
{
    Settings {
        comments: w % 2 == 1,
        callf: w / 2 % 2 == 1,
        folds: w / 4 % 2 == 1,
    }
}
