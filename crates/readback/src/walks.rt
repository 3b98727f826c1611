// The walk over an image: a first one for the count and the length of the listing, a second that writes.
ghost use Rattle.std.specs.Prelude.{◌≡◌, ◌+◌, ◌<◌, ◌≤◌, length};
ghost use Rattle.rules.specs.Output.{frame_of, line_of};
ghost use Rattle.digits.specs.Digits.{laid};
ghost use Rattle.readback.specs.ReadBack.{listing_of};
ghost use Rattle.readback.specs.Walks.{first_on, all_on, StepAt, ExtentOf};

use crate::frames::{Step, frame_at};
use digits::put_line;
use rules::Address;

// How many statements there are, and how many characters their listing has.
#[derive(Clone, Copy)]
pub struct Extent(pub usize, pub usize);

// The statement at q.
fn step_at(image: &[u8], q: Address) -> Step
    requires { (q.0 < length image.now) × (length image.now ≤ 65536) }
    ensures { StepAt image.now q.0 result }
{
    let mut frame = [0u8; 17];
    let at = q.0;
    frame_at(&image[at..], q, &mut frame)
}

// The same, with its line stored from `at` on.
fn write_at(image: &[u8], q: Address, out: &mut [u8], at: usize) -> Step
    requires { (q.0 < length image.now) × (length image.now ≤ 65536)
        × (at + length (line_of (frame_of (first_on image.now q.0))) ≤ length out.old) }
    ensures { StepAt image.now q.0 result
        × (out.new ≡ laid out.old at (line_of (frame_of (first_on image.now q.0)))) }
{
    let mut frame = [0u8; 17];
    let from = q.0;
    let step = frame_at(&image[from..], q, &mut frame);
    let n = step.1;
    put_line(out, at, &frame[..n]);
    step
}

// The statements from start on.
pub fn measure(image: &[u8], start: Address) -> Extent
    requires { (start.0 ≤ length image.now) × (length image.now ≤ 65536) }
    ensures { ExtentOf (all_on image.now start.0) result × (result.0 ≤ 65536) × (result.1 ≤ 2293760) }
{
    let mut q = start.0;
    let mut count = 0;
    let mut chars = 0;
    // statement by statement: q goes on by its bytes
    while q < image.len() {
        let step = step_at(image, Address(q));
        q += step.0;
        count += 1;
        chars += 2 * step.1 + 1;
    }
    Extent(count, chars)
}

// Their lines, from `at` on.
pub fn write_from(image: &[u8], start: Address, out: &mut [u8], at: usize)
    requires { (start.0 ≤ length image.now) × (length image.now ≤ 65536)
        × (at + length (listing_of (all_on image.now start.0)) ≤ length out.old) }
    ensures { out.new ≡ laid out.old at (listing_of (all_on image.now start.0)) }
{
    let mut q = start.0;
    let mut a = at;
    // statement by statement: q goes on by its bytes
    while q < image.len() {
        let step = write_at(image, Address(q), out, a);
        q += step.0;
        a += 2 * step.1 + 1;
    }
}
