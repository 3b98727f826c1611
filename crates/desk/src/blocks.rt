// Blocks of standard input: a line `==` ends each, the last one may lack it.
ghost use Rattle.std.specs.Prelude.{◌≤◌, ◌<◌};
ghost use Rattle.desk.specs.Counts.{IsPrefixLen};

// Where the first line `==` begins; the text's end where there is none.
pub fn block_end(text: &[u8]) -> usize
    ensures { IsPrefixLen result text.now }
{
    let mut is_new = true;
    for (i, b) in text.iter().enumerate() {
        if is_new && text[i..].starts_with(b"==\n") {
            return i;
        }
        is_new = *b == b'\n';
    }
    text.len()
}

// Behind the block that begins at `at` and has n characters, and behind its line `==`; at most the text's end.
pub fn behind(at: usize, n: usize, end: usize) -> usize
    requires { at < end }
    ensures { (at < result) × (result ≤ end) }
{
    at.saturating_add(n).saturating_add(3).min(end)
}
