// The settings place by place, for whoever lists them.
ghost use Rattle.std.specs.Prelude.{◌≡◌, ◌≤◌, length};
ghost use Rattle.store.specs.Store.{place_at};
ghost use Rattle.store.specs.Rooms.{store_in, place_in, shown_as, shown_of};

use crate::Setting;
use crate::judging::judge;
use crate::places::read_setting;
use crate::testing::is_free;
use rules::Refusal;

// What a place of a good store holds, if it is not free.
fn show_at(room: &[u8], k: usize) -> Option<Setting>
    requires { 160 ≤ length room.now }
    ensures { result ≡ shown_of (place_at k (store_in room.now)) }
{
    if 32 <= k {
        return None;
    }
    let s = read_setting(room, k);
    if is_free(s) { None } else { Some(s) }
}

// What place k holds, or refusal 12 or 19; there is nothing from place 32 on.
pub fn show_place(room: &[u8], k: usize) -> Result<Option<Setting>, Refusal>
    ensures { result ≡ shown_as (place_in room.now k) }
{
    judge(room)?;
    Ok(show_at(room, k))
}
