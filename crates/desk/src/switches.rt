// A listing under the other settings of C-24: its answer is written only where it is not the one that was given.
use crate::rooms::part;
use printing::{page_length, print_run, refusal_line};
use rules::Settings;
use std::io;

// The settings by their number: 1 keeps comments, 2 lets Callf shrink, 4 lets folds run.
pub fn numbered(k: u8) -> Settings {
    Settings {
        comments: k % 2 == 1,
        callf: k / 2 % 2 == 1,
        folds: k / 4 % 2 == 1,
    }
}

// Under each setting but document 01's own, which is 7.
pub fn put_others(rt: &impl Print, text: &[u8], given: &[u8]) -> io::Result<()> {
    for k in 0..7 {
        put_other(rt, k, text, given)?;
    }
    Ok(())
}

// A line ASKED with the setting's number, and what the program prints.
fn put_other(rt: &impl Print, k: u8, text: &[u8], given: &[u8]) -> io::Result<()> {
    let mut page = [0u8; 62482];
    let mut image = [0u8; 65536];
    let answer = print_run(numbered(k), text, &mut page, &mut image);
    match answer {
        Ok(_) => put_page_asked(rt, k, given, &page, page_length(answer)),
        Err(r) => {
            let line = refusal_line(r);
            put_asked(rt, k, given, &line)
        }
    }
}

fn put_page_asked(
    rt: &impl Print,
    k: u8,
    given: &[u8],
    page: &[u8; 62482],
    n: usize,
) -> io::Result<()> {
    let page: &[u8] = page;
    let n = part(n, page);
    put_asked(rt, k, given, &page[..n])
}

fn put_asked(rt: &impl Print, k: u8, given: &[u8], printed: &[u8]) -> io::Result<()> {
    if given != printed {
        println!(rt; "ASKED {k}")?;
        rt.write_all(printed)?;
    }
    Ok(())
}
