// One place of the store: its five bytes as a setting, and back.
ghost use Rattle.std.specs.Prelude.{◌≡◌, ◌+◌, ◌*◌, ◌/◌, ◌%◌, ◌<◌, ◌≤◌, length};
ghost use Rattle.store.specs.Rooms.{setting_at, with_place};

use crate::Setting;

pub fn read_setting(room: &[u8], k: usize) -> Setting
    requires { (k < 32) × (160 ≤ length room.now) }
    ensures { result ≡ setting_at room.now k }
{
    let at = 5 * k;
    Setting {
        family: u16::from_be_bytes([room[at], room[at + 1]]),
        edition: u16::from_be_bytes([room[at + 2], room[at + 3]]),
        switches: room[at + 4],
    }
}

fn high_byte(x: u16) -> u8
    ensures { result ≡ x / 256 }
{
    (x / 256) as u8
}

fn low_byte(x: u16) -> u8
    ensures { result ≡ x % 256 }
{
    (x % 256) as u8
}

pub fn put_setting(room: &mut [u8], k: usize, s: Setting)
    requires { (k < 32) × (160 ≤ length room.old) }
    ensures { room.new ≡ with_place room.old k s }
{
    let at = 5 * k;
    room[at] = high_byte(s.family);
    room[at + 1] = low_byte(s.family);
    room[at + 2] = high_byte(s.edition);
    room[at + 3] = low_byte(s.edition);
    room[at + 4] = s.switches;
}
