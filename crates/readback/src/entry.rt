// The public entry: what is refused, in its order, and then the listing.
ghost use Rattle.std.specs.Prelude.{◌≡◌, ◌&&◌, ◌<◌, ◌≤◌, ◌%◌, ltb, length};
ghost use Rattle.rules.specs.Programs.{org};
ghost use Rattle.rules.specs.Output.{frame_of, line_of};
ghost use Rattle.digits.specs.Digits.{laid};
ghost use Rattle.readback.specs.ReadBack.{statements_of, listing_of, read_back};
ghost use Rattle.readback.specs.Walks.{ExtentOf};
ghost use Rattle.readback.specs.Entry.{Leaves};

use crate::walks::{Extent, measure, write_from};
use digits::{low_byte, put_line};
use rules::{Address, Place, Refusal, Sizes};

// The org's line has seven characters.
const ORG_LINE: usize = 7;

// "after an org frame if the start is above 0"; a start at the end gives none.
fn has_org(image: &[u8], start: Address) -> bool
    ensures { result ≡ (ltb 0 start.0 && ltb start.0 (length image.now)) }
{
    let at = start.0;
    0 < at && at < image.len()
}

// The org at the front of the room.
fn write_org(start: Address, out: &mut [u8])
    requires { (start.0 < 65536) × (7 ≤ length out.old) }
    ensures { out.new ≡ laid out.old 0 (line_of (frame_of (org start.0))) }
{
    let at = start.0;
    let frame = [5, low_byte(at / 256), low_byte(at)];
    put_line(out, 0, &frame);
}

// All statements: how many, and how many characters.
fn extent(image: &[u8], start: Address) -> Extent
    requires { (start.0 ≤ length image.now) × (length image.now ≤ 65536) }
    ensures { ExtentOf (statements_of image.now start.0) result }
{
    let rest = measure(image, start);
    if has_org(image, start) {
        return Extent(rest.0 + 1, rest.1 + ORG_LINE);
    }
    rest
}

// The whole listing at the front of the room.
fn write_all(image: &[u8], start: Address, listing: &mut [u8])
    requires { (start.0 ≤ length image.now) × (length image.now ≤ 65536)
        × (length (listing_of (statements_of image.now start.0)) ≤ length listing.old) }
    ensures { listing.new ≡ laid listing.old 0 (listing_of (statements_of image.now start.0)) }
{
    if has_org(image, start) {
        write_org(start, listing);
        write_from(image, start, listing, ORG_LINE);
        return;
    }
    write_from(image, start, listing, 0);
}

// From an image that is not too long, and a start within it.
fn write_back(image: &[u8], start: Address, listing: &mut [u8]) -> Result<Sizes, Refusal>
    requires { (start.0 ≤ length image.now) × (length image.now ≤ 65536) }
    ensures { let x = read_back image.now start.0 (length listing.old) in
        Leaves x result listing.old listing.new }
{
    let whole = extent(image, start);
    let count = whole.0;
    let chars = whole.1;
    if 1024 < count {
        return Err(Refusal::Limit(Place(1024)));
    }
    if listing.len() < chars {
        return Err(Refusal::Room(count));
    }
    write_all(image, start, listing);
    Ok(Sizes {
        listing: chars,
        rewrites: 0,
        image: 0,
    })
}

// Reads an image back from a start address on. On refusal no lent byte changes.
pub fn read_back(image: &[u8], start: usize, listing: &mut [u8]) -> Result<Sizes, Refusal>
    ensures { let x = read_back image.now start (length listing.old) in
        Leaves x result listing.old listing.new }
{
    if image.len() < start {
        return Err(Refusal::Start);
    }
    if 65536 < image.len() {
        return Err(Refusal::Limit(Place(0)));
    }
    write_back(image, Address(start), listing)
}
