// A new edition, in the first free place.
ghost use Rattle.std.specs.Prelude.{◌≡◌, ◌<◌, ◌≤◌, length};
ghost use Rattle.store.specs.Store.{add, added};
ghost use Rattle.store.specs.Rooms.{store_in, add_in, after_add, numbered_as};
ghost use Rattle.store.specs.Changes.{FirstFree, Leaves};

use crate::Setting;
use crate::asking::newest_of;
use crate::judging::judge;
use crate::places::{put_setting, read_setting};
use crate::testing::{is_free, switches_of};
use rules::{Refusal, Settings};

// The first free place, 32 where there is none.
fn first_free(room: &[u8]) -> usize
    requires { 160 ≤ length room.now }
    ensures { FirstFree (store_in room.now) result }
{
    (0..32)
        .find(|k| is_free(read_setting(room, *k)))
        .unwrap_or(32)
}

// A new edition of a good store, and its number; or refusal 18.
fn add_to(room: &mut [u8], family: u16, switches: u8) -> Result<u16, Refusal>
    requires { 160 ≤ length room.old }
    ensures { let ss = store_in room.old in
        Leaves room.old (add family ss) (added family switches ss) result room.new }
{
    let k = first_free(room);
    let top = newest_of(room, family);
    if 32 <= k || 65535 <= top {
        return Err(Refusal::Full);
    }
    let number = top + 1;
    put_setting(
        room,
        k,
        Setting {
            family,
            edition: number,
            switches,
        },
    );
    Ok(number)
}

// Adds an edition of a family, and gives its number; or refusal 12, 19 or 18, and no byte changes.
pub fn add_edition(room: &mut [u8], family: u16, settings: Settings) -> Result<u16, Refusal>
    ensures value { result ≡ numbered_as (add_in room.old family) }
    ensures room_after { room.new ≡ after_add room.old family settings }
{
    judge(room)?;
    add_to(room, family, switches_of(settings))
}
