// The lines of the differences: a frame's digits are copied as they stand.
ghost use Rattle.std.specs.Prelude.{◌≡◌, ◌∷◌, ◌++◌, ◌+◌, ◌*◌, ◌≤◌, ◌<◌, ◌/◌, ◌%◌, length};
ghost use Rattle.rules.specs.Listing.{unhex};
ghost use Rattle.rules.specs.Expressions.{pair};
ghost use Rattle.rules.specs.Output.{line_of};
ghost use Rattle.digits.specs.Digits.{laid};
ghost use Rattle.pairing.specs.Lines.{Written};
ghost use Rattle.differences.specs.Changes.{paired, kept, changed, bytes_of};
ghost use Rattle.differences.specs.Walks.{PairSize};

use digits::{low_byte, put_bytes};
use pairing::same_bytes;

fn high(x: usize) -> u8
    requires { x < 65536 }
    ensures { result ≡ x / 256 }
{
    (x / 256) as u8
}

// A copy of s from `at` on.
fn put_text(out: &mut [u8], at: usize, s: &[u8])
    requires { at + length s.now ≤ length out.old }
    ensures { out.new ≡ laid out.old at s.now }
{
    // by hand: `copy_from_slice` of what is lent beside the room would ask for `memmove` from outside the archive
    for (k, c) in s.iter().enumerate() {
        out[at + k] = *c;
    }
}

// The bytes of a head, and behind them a frame; where the line ends.
fn put_headed(out: &mut [u8], at: usize, head: &[u8], line: &[u8]) -> usize
    requires { Written line.now × (at + (2 * length head.now + 1 + length line.now) ≤ length out.old) }
    ensures { (out.new ≡ laid out.old at (line_of (head.now ++ unhex line.now)))
        × (result ≡ at + (2 * length head.now + 1 + length line.now)) }
{
    let middle = at + 2 * head.len();
    let end = middle + line.len();
    put_bytes(out, at, head);
    put_text(out, middle, line);
    out[end] = b'\n';
    end + 1
}

// Kind, place, frame; where the line ends.
pub fn put_one(out: &mut [u8], at: usize, kind: u8, i: usize, line: &[u8]) -> usize
    requires { Written line.now × (i < 65536) × (at + (7 + length line.now) ≤ length out.old) }
    ensures { (out.new ≡ laid out.old at (line_of (kind ∷ (pair i ++ unhex line.now))))
        × (result ≡ at + (7 + length line.now)) }
{
    put_headed(out, at, &[kind, high(i), low_byte(i)], line)
}

// 70, both places, the frame.
fn put_kept(out: &mut [u8], at: usize, i: usize, j: usize, line: &[u8]) -> usize
    requires { Written line.now × (i < 65536) × (j < 65536) × (at + (11 + length line.now) ≤ length out.old) }
    ensures { (out.new ≡ laid out.old at (line_of (bytes_of (kept i j (unhex line.now)))))
        × (result ≡ at + (11 + length line.now)) }
{
    put_headed(
        out,
        at,
        &[0x70, high(i), low_byte(i), high(j), low_byte(j)],
        line,
    )
}

// 73, both places, how many bytes the old frame has, both frames.
fn put_changed(out: &mut [u8], at: usize, i: usize, j: usize, old: &[u8], new: &[u8]) -> usize
    requires { Written old.now × Written new.now × (i < 65536) × (j < 65536)
        × (at + (13 + (length old.now + length new.now)) ≤ length out.old) }
    ensures { let x = line_of (bytes_of (changed i j (unhex old.now) (unhex new.now))) in
        (out.new ≡ laid out.old at x)
        × (result ≡ at + (13 + (length old.now + length new.now))) }
{
    let head = [
        0x73,
        high(i),
        low_byte(i),
        high(j),
        low_byte(j),
        low_byte(old.len() / 2),
    ];
    let middle = at + 12 + old.len();
    let end = middle + new.len();
    put_bytes(out, at, &head);
    put_text(out, at + 12, old);
    put_text(out, middle, new);
    out[end] = b'\n';
    end + 1
}

// A pair: kept where the frames are the same, changed where they are not.
pub fn put_pair(out: &mut [u8], at: usize, i: usize, j: usize, old: &[u8], new: &[u8]) -> usize
    requires { Written old.now × Written new.now × (i < 65536) × (j < 65536)
        × (at + length (line_of (bytes_of (paired i j (unhex old.now) (unhex new.now)))) ≤ length out.old) }
    ensures { let x = line_of (bytes_of (paired i j (unhex old.now) (unhex new.now))) in
        (out.new ≡ laid out.old at x) × (result ≡ at + length x) }
{
    if same_bytes(old, new) {
        put_kept(out, at, i, j, new)
    } else {
        put_changed(out, at, i, j, old, new)
    }
}

// How many characters the line of a pair has.
pub fn pair_size(old: &[u8], new: &[u8]) -> usize
    requires { Written old.now × Written new.now }
    ensures { PairSize old.now new.now result }
{
    if same_bytes(old, new) {
        11 + new.len()
    } else {
        13 + old.len() + new.len()
    }
}
