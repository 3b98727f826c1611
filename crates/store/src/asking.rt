// An edition of a family, or its newest.
ghost use Rattle.std.specs.Prelude.{◌≡◌, ◌≤◌, length};
ghost use Rattle.store.specs.Store.{find, newest, get};
ghost use Rattle.store.specs.Rooms.{store_in, get_in, newest_in, held_as, found_as};

use crate::Edition;
use crate::judging::judge;
use crate::places::read_setting;
use crate::testing::{is_of, newer, settings_of};
use rules::Refusal;

// The switches of a family's edition, if a place holds it.
fn find_switches(room: &[u8], family: u16, edition: u16) -> Option<u8>
    requires { 160 ≤ length room.now }
    ensures { result ≡ held_as (find family edition (store_in room.now)) }
{
    for k in 0..32 {
        let s = read_setting(room, k);
        if is_of(s, family, edition) {
            return Some(s.switches);
        }
    }
    None
}

// The number of the family's newest edition, 0 where it has none.
pub fn newest_of(room: &[u8], family: u16) -> u16
    requires { 160 ≤ length room.now }
    ensures { result ≡ newest family (store_in room.now) }
{
    let mut top = 0;
    for k in 0..32 {
        top = newer(read_setting(room, k), family, top);
    }
    top
}

// An edition of a good store, or refusal 17.
fn ask(room: &[u8], family: u16, edition: u16) -> Result<Edition, Refusal>
    requires { 160 ≤ length room.now }
    ensures { result ≡ found_as (get family edition (store_in room.now)) }
{
    if edition < 1 {
        return Err(Refusal::Unknown);
    }
    let w = find_switches(room, family, edition).ok_or(Refusal::Unknown)?;
    Ok(Edition {
        number: edition,
        settings: settings_of(w),
    })
}

// The settings of a family's edition, or refusal 12, 19 or 17.
pub fn get_edition(room: &[u8], family: u16, edition: u16) -> Result<Edition, Refusal>
    ensures { result ≡ found_as (get_in room.now family edition) }
{
    judge(room)?;
    ask(room, family, edition)
}

// The number and the settings of a family's newest edition, or refusal 12, 19 or 17.
pub fn get_newest(room: &[u8], family: u16) -> Result<Edition, Refusal>
    ensures { result ≡ found_as (newest_in room.now family) }
{
    judge(room)?;
    ask(room, family, newest_of(room, family))
}
