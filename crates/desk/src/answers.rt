// One listing of many: what the program prints for it and its image in digits; and, where asked, the same with rooms that are too short and under
// other settings.
ghost use Rattle.desk.specs.Counts.{IsPrefixLen};

use crate::rooms::{part, put_digit, put_pair};
use crate::switches::put_others;
use entries::optimize_jumps;
use printing::{page_length, print_run, refusal_line};
use rules::{Refusal, Settings, Sizes};
use std::io;

// The answer to a listing, and a line `==`.
pub fn put_answer(
    rt: &impl Print,
    asked: Settings,
    text: &[u8],
    on_all_sides: bool,
) -> io::Result<()> {
    let mut page = [0u8; 62482];
    let mut image = [0u8; 65536];
    let answer = print_run(asked, text, &mut page, &mut image);
    match answer {
        Ok(sizes) => {
            put_page(rt, &page, page_length(answer))?;
            put_image(rt, &image, sizes.image)?;
            if on_all_sides {
                put_sides(rt, asked, text, sizes, &page)?;
            }
        }
        Err(r) => put_refusal(rt, r)?,
    }
    rt.write_all(b"==\n")
}

// The same with rooms that are too short, and under the other settings.
fn put_sides(
    rt: &impl Print,
    asked: Settings,
    text: &[u8],
    sizes: Sizes,
    page: &[u8; 62482],
) -> io::Result<()> {
    put_rooms(rt, asked, text, sizes)?;
    let page: &[u8] = page;
    let n = part(page_length(Ok(sizes)), page);
    put_others(rt, text, &page[..n])
}

// The front of the page: all that the program prints for a listing that is accepted.
pub fn put_page(rt: &impl Print, page: &[u8; 62482], n: usize) -> io::Result<()> {
    let page: &[u8] = page;
    let n = part(n, page);
    rt.write_all(&page[..n])
}

// How many zeros the bytes begin with.
fn zeros(bytes: &[u8]) -> usize
    ensures { IsPrefixLen result bytes.now }
{
    bytes.iter().position(|b| *b != 0).unwrap_or(bytes.len())
}

// A number's last digit in hexadecimal, where it is shown.
fn put_last(rt: &impl Print, is_shown: bool, n: usize) -> io::Result<()> {
    if is_shown {
        put_digit(rt, (n % 16) as u8)?;
    }
    Ok(())
}

// At most 65,536 in hexadecimal, with no zeros in front.
fn put_count(rt: &impl Print, n: usize) -> io::Result<()> {
    put_last(rt, n >= 65536, n / 65536)?;
    put_last(rt, n >= 4096, n / 4096)?;
    put_last(rt, n >= 256, n / 256)?;
    put_last(rt, n >= 16, n / 16)?;
    put_last(rt, true, n)
}

// IMAGE, how many zeros it begins with in hexadecimal, and the rest in digit pairs.
fn put_image(rt: &impl Print, image: &[u8; 65536], n: usize) -> io::Result<()> {
    let image: &[u8] = image;
    let n = part(n, image);
    put_bytes(rt, &image[..n])
}

fn put_bytes(rt: &impl Print, bytes: &[u8]) -> io::Result<()> {
    let k = zeros(bytes);
    rt.write_all(b"IMAGE ")?;
    put_count(rt, k)?;
    rt.write_all(b" ")?;
    put_digits(rt, &bytes[k..])?;
    rt.write_all(b"\n")
}

fn put_digits(rt: &impl Print, bytes: &[u8]) -> io::Result<()> {
    for b in bytes {
        put_pair(rt, *b)?;
    }
    Ok(())
}

// With a listing room one byte too short, an image room one byte too short, and both exact.
fn put_rooms(rt: &impl Print, asked: Settings, text: &[u8], sizes: Sizes) -> io::Result<()> {
    if sizes.listing > 0 {
        put_run(rt, asked, text, sizes.listing - 1, sizes.image)?;
    }
    if sizes.image > 0 {
        put_run(rt, asked, text, sizes.listing, sizes.image - 1)?;
    }
    put_run(rt, asked, text, sizes.listing, sizes.image)
}

// A run with rooms of these lengths.
fn put_run(
    rt: &impl Print,
    asked: Settings,
    text: &[u8],
    listing: usize,
    image: usize,
) -> io::Result<()> {
    let mut page = [0u8; 65536];
    let mut bytes = [0u8; 65536];
    let n = part(listing, &page);
    let m = part(image, &bytes);
    put_lent(rt, asked, text, &mut page[..n], &mut bytes[..m])
}

// A line ROOMS with 7F, or with the refusal, and one more where a refusal changed a byte of a room.
fn put_lent(
    rt: &impl Print,
    asked: Settings,
    text: &[u8],
    page: &mut [u8],
    image: &mut [u8],
) -> io::Result<()> {
    rt.write_all(b"ROOMS ")?;
    match optimize_jumps(asked, text, page, image) {
        Ok(_) => rt.write_all(b"7F\n"),
        Err(r) => {
            put_refusal(rt, r)?;
            put_kept(rt, page)?;
            put_kept(rt, image)
        }
    }
}

// All that the program prints for a listing that is refused.
pub fn put_refusal(rt: &impl Print, r: Refusal) -> io::Result<()> {
    let line = refusal_line(r);
    rt.write_all(&line)
}

// The rooms held zeros.
fn put_kept(rt: &impl Print, room: &[u8]) -> io::Result<()> {
    if room.iter().any(|b| *b != 0) {
        rt.write_all(b"ROOMS CHANGED\n")?;
    }
    Ok(())
}
