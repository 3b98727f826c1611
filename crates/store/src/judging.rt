// 12 and 19: the room holds 32 settings, each in range, none held twice.
ghost use Rattle.std.specs.Prelude.{◌≡◌, ◌+◌, ◌<◌, ◌≤◌, length, drop};
ghost use Rattle.laws.specs.Lists.{every};
ghost use Rattle.store.specs.Store.{in_range, none_holds, alone, none_twice};
ghost use Rattle.store.specs.Rooms.{setting_at, store_in, judged, verdict_as};

use crate::places::read_setting;
use crate::testing::{in_range, is_free, is_of};
use rules::Refusal;

fn all_in_range(room: &[u8]) -> bool
    requires { 160 ≤ length room.now }
    ensures { result ≡ every (λ s. in_range s) (store_in room.now) }
{
    (0..32).all(|k| in_range(read_setting(room, k)))
}

// No place from `from` on holds this family and edition.
fn none_holds(room: &[u8], family: u16, edition: u16, from: usize) -> bool
    requires { (160 ≤ length room.now) × (from ≤ 32) }
    ensures { result ≡ none_holds family edition (drop from (store_in room.now)) }
{
    (from..32).all(|k| !is_of(read_setting(room, k), family, edition))
}

// No place behind k holds what it holds, unless it is free.
fn is_alone(room: &[u8], k: usize) -> bool
    requires { (160 ≤ length room.now) × (k < 32) }
    ensures { result ≡ alone (setting_at room.now k) (drop (k + 1) (store_in room.now)) }
{
    let s = read_setting(room, k);
    is_free(s) || none_holds(room, s.family, s.edition, k + 1)
}

fn none_twice(room: &[u8]) -> bool
    requires { 160 ≤ length room.now }
    ensures { result ≡ none_twice (store_in room.now) }
{
    (0..32).all(|k| is_alone(room, k))
}

// The store may be asked, or the first refusal.
pub fn judge(room: &[u8]) -> Result<(), Refusal>
    ensures { result ≡ verdict_as (judged room.now) }
{
    if room.len() < 160 {
        return Err(Refusal::Room(0));
    }
    if all_in_range(room) && none_twice(room) {
        Ok(())
    } else {
        Err(Refusal::Store)
    }
}
