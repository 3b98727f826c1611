// The part of a text that comes before statement n.
ghost use Rattle.std.specs.Prelude.{◌≡◌, ◌≤◌, length};
ghost use Rattle.sits.specs.Before.{lines_length, length_before};

use listing::new_form;

// How many bytes the first n lines have: all of them where there are fewer.
fn lines_length(text: &[u8], n: usize) -> usize
    ensures { result ≡ lines_length n text.now }
{
    let mut passed = 0;
    for (i, c) in text.iter().enumerate() {
        if passed == n {
            return i;
        }
        if *c == b'\n' {
            passed += 1;
        }
    }
    text.len()
}

// How many bytes come before statement n: the lines before it, and the line that marks their form. Where n is 0 not even the mark is looked at.
pub fn bytes_before(text: &[u8], n: usize) -> usize
    ensures { (result ≡ length_before n text.now) × (result ≤ length text.now) }
{
    if n == 0 {
        return 0;
    }
    if new_form(text) {
        return 5 + lines_length(&text[5..], n);
    }
    lines_length(text, n)
}
