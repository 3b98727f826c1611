// `.comment`: "comment bytes are upper-case hexadecimal".
ghost use Rattle.std.specs.Prelude.{◌≡◌, ℕ, ◌+◌, ◌≤◌, ◌<◌, length, drop};
ghost use Rattle.rules.specs.Listing.{is_digit, digit};
ghost use Rattle.plans.specs.Plans.{finish};
ghost use Rattle.plans.specs.Finals.{comments};
ghost use Rattle.laying.specs.Speaking.{Spoken};

use digits::{digit, is_digit};
use laying::{Told, put};

// The pairs from k on, of which there is at least one.
pub fn comment_line(s: &[u8], k: usize, out: &mut [u8; 120]) -> Told
    requires { (k ≤ length s.now) × (length out.old ≡ 120) }
    ensures { Spoken (finish comments) s.now k out.new result }
{
    if k >= s.len() {
        return Err(k);
    }
    let mut at = put(out, 0, 4);
    let mut i = k;
    // a pair of digits a turn
    while i < s.len() {
        let c = s[i];
        if !is_digit(c) {
            return Err(i);
        }
        let j = i + 1;
        if j >= s.len() {
            return Err(j);
        }
        let d = s[j];
        if !is_digit(d) {
            return Err(j);
        }
        at = put(out, at, digit(c) * 16 + digit(d));
        i += 2;
    }
    Ok(at)
}
