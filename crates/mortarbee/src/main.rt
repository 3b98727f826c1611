// Document 01's program: a listing on standard input; on standard output the new one and a last line, or the 7E line of a refusal.
#![tactic(auto)]

ghost use Rattle.std.specs.Prelude.{◌≡◌};
ghost use Rattle.rules.specs.Settings.{by_default};

use desk::{put_page, put_refusal, read_full};
use printing::{page_length, print_run};
use rules::Settings;
use std::io;

// A text that is longer than the buffer is refused within it: 57,344 characters, 1,024 line feeds and the first line are the most that is accepted.
fn main(rt: HostRuntime) -> io::Result<()> {
    let mut text = [0u8; 65536];
    let n = read_full(&mut rt.reader(), &mut text)?;
    print_answer(&rt, &text[..n])
}

// C-18: "By default, drop them": comments go, Callf is tried as Call, and folds are tried.
fn by_default() -> Settings
    ensures { result ≡ by_default }
{
    Settings {
        comments: false,
        callf: true,
        folds: true,
    }
}

fn print_answer(rt: &impl Print, text: &[u8]) -> io::Result<()> {
    let mut page = [0u8; 62482];
    let mut image = [0u8; 65536];
    let answer = print_run(by_default(), text, &mut page, &mut image);
    match answer {
        Ok(_) => put_page(rt, &page, page_length(answer)),
        Err(r) => put_refusal(rt, r),
    }
}
