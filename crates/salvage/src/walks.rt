// The walk over a text: a first one for the count and the lengths of what comes out, a second that writes.
ghost use Rattle.std.specs.Prelude.{◌≡◌, ◌+◌, ◌*◌, ◌<◌, ◌≤◌, length};
ghost use Rattle.listing.specs.Form.{form_of};
ghost use Rattle.digits.specs.Digits.{laid};
ghost use Rattle.salvage.specs.Salvage.{keeps_limits};
ghost use Rattle.salvage.specs.Entry.{extent_of};
ghost use Rattle.salvage.specs.Turns.{from_on, told_length, told_of};

use lines::{put_left, put_replaced, put_standing, take_turn};
use listing::line_bytes;
use rules::Place;

// How many statements come out, and how many bytes of listing and of report.
#[derive(Clone, Copy)]
pub struct Extent {
    pub statements: usize,
    pub listing: usize,
    pub report: usize,
}

// Whether `length` more characters keep the statement limit and the total.
fn keeps_limits(marked: bool, i: usize, sum: usize, length: usize) -> bool
    requires { (sum ≤ 65536) × (length ≤ 248) }
    ensures { result ≡ keeps_limits (form_of marked) i sum length }
{
    i < 1024 && sum + length <= 49152 + 2048 * line_bytes(marked)
}

// How many characters are told of a line.
fn told_length(number: u8) -> usize
    ensures { (result ≡ told_length number) × (result ≤ 9) }
{
    if number == 0 { 0 } else { 9 }
}

// What is told of a line, from `at` on, and where that ends.
fn put_told(report: &mut [u8], at: usize, number: u8, place: Place) -> usize
    requires { (at + told_length number ≤ length report.old) × (place.0 < 65536) }
    ensures { (report.new ≡ laid report.old at (told_of number place.0)) × (result ≡ at + told_length number) }
{
    if number == 0 {
        at
    } else {
        put_replaced(report, at, number, place);
        at + 9
    }
}

// What comes out of the lines from byte `start` on, which are the first statements.
pub fn measure(text: &[u8], marked: bool, start: usize) -> Extent
    requires { start ≤ length text.now }
    ensures { (result ≡ extent_of (from_on (form_of marked) text.now start 0 0)) × (result.listing ≤ 58368) }
{
    let mut q = start;
    let mut i = 0;
    let mut sum = 0;
    let mut told = 0;
    // line by line: q goes on by a line's length
    while q < text.len() {
        let t = take_turn(&text[q..], marked);
        if !keeps_limits(marked, i, sum, t.length) {
            return Extent {
                statements: i,
                listing: sum + i,
                report: told + 7,
            };
        }
        q += t.end;
        i += 1;
        sum += t.length;
        told += told_length(t.number);
    }
    Extent {
        statements: i,
        listing: sum + i,
        report: told,
    }
}

// Their lines, behind the mark's `start` characters, and the report.
pub fn write_from(text: &[u8], marked: bool, start: usize, listing: &mut [u8], report: &mut [u8])
    requires { (start ≤ length text.now)
        × (start + length (from_on (form_of marked) text.now start 0 0).listing ≤ length listing.old)
        × (length (from_on (form_of marked) text.now start 0 0).report ≤ length report.old) }
    ensures { let x = from_on (form_of marked) text.now start 0 0 in
        (listing.new ≡ laid listing.old start x.listing)
        × (report.new ≡ laid report.old 0 x.report) }
{
    let mut q = start;
    let mut i = 0;
    let mut at = start;
    let mut sum = 0;
    let mut told = 0;
    // line by line: q goes on by a line's length
    while q < text.len() {
        let t = take_turn(&text[q..], marked);
        if !keeps_limits(marked, i, sum, t.length) {
            put_left(report, told, Place(i));
            return;
        }
        let end = q + t.end;
        put_standing(&text[q..end], marked, t.number, listing, at);
        told = put_told(report, told, t.number, Place(i));
        q = end;
        at += t.length + 1;
        i += 1;
        sum += t.length;
    }
}
