// Old editions of a family give their places back, and the newest stays.
ghost use Rattle.std.specs.Prelude.{◌≡◌, map, ◌<◌, ◌≤◌, length};
ghost use Rattle.store.specs.Store.{cleared, drop_old, dropped};
ghost use Rattle.store.specs.Rooms.{store_in, room_with, drop_in, after_drop, numbered_as};
ghost use Rattle.store.specs.Changes.{cleared_place, Leaves};

use crate::Setting;
use crate::asking::newest_of;
use crate::judging::judge;
use crate::places::{put_setting, read_setting};
use crate::testing::is_old;
use rules::Refusal;

// Clears a place that holds an edition of the family below `top`.
fn clear_place(room: &mut [u8], k: usize, family: u16, top: u16)
    requires { (k < 32) × (160 ≤ length room.old) }
    ensures { room.new ≡ cleared_place family top room.old k }
{
    if is_old(read_setting(room, k), family, top) {
        put_setting(
            room,
            k,
            Setting {
                family: 0,
                edition: 0,
                switches: 0,
            },
        );
    }
}

fn clear_old(room: &mut [u8], family: u16, top: u16)
    requires { 160 ≤ length room.old }
    ensures { let ss = store_in room.old in
        room.new ≡ room_with room.old (map (λ s. cleared family top s) ss) }
{
    for k in 0..32 {
        clear_place(room, k, family, top);
    }
}

// Drops the old editions of a good store, and gives the number of the one that stays; or refusal 17.
fn drop_from(room: &mut [u8], family: u16) -> Result<u16, Refusal>
    requires { 160 ≤ length room.old }
    ensures { let ss = store_in room.old in
        Leaves room.old (drop_old family ss) (dropped family ss) result room.new }
{
    let top = newest_of(room, family);
    if top < 1 {
        return Err(Refusal::Unknown);
    }
    clear_old(room, family, top);
    Ok(top)
}

// Drops the old editions of a family, and gives the number of the one that stays; or refusal 12, 19 or 17, and no byte changes.
pub fn drop_old(room: &mut [u8], family: u16) -> Result<u16, Refusal>
    ensures value { result ≡ numbered_as (drop_in room.old family) }
    ensures room_after { room.new ≡ after_drop room.old family }
{
    judge(room)?;
    drop_from(room, family)
}
