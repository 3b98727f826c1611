// C-19: one line of the people's text to a frame.
#![tactic(auto)]

ghost use Rattle.std.specs.Prelude.{◌≡◌, ℕ, ◌≤◌, ◌<◌, length};
ghost use Rattle.plans.specs.Lines.{line_plan};
ghost use Rattle.plans.specs.Fronts.{spelling, opens, Matches};
ghost use Rattle.openings.specs.Numbered.{word_at};
ghost use Rattle.laying.specs.Speaking.{Spoken};
ghost use Rattle.people.specs.Reading.{Answers};

use arguing::arguments;
use instruction::tables::operand_count;
use laying::{Told, put};
use openings::{Begun, begin};
use phrases::names::{global_line, local_line};
use phrases::numbers::{align_line, org_line};
use series::comments::comment_line;
use series::items::{bytes_line, words_line};

// A mnemonic, which ends at n.
fn form_line(s: &[u8], n: usize, form: u8, out: &mut [u8; 120]) -> Told
    requires { (form < 70) × (length out.old ≡ 120) × Matches (opens (word_at form)) (spelling (word_at form)) s.now n }
    ensures { Spoken line_plan s.now 0 out.new result }
{
    if operand_count(form) > 0 {
        return arguments(s, n, form, out);
    }
    let a = put(out, 0, 1);
    Ok(put(out, a, form))
}

// A dot word, by its number, which ends at n.
fn dot_line(s: &[u8], n: usize, row: u8, out: &mut [u8; 120]) -> Told
    requires { (70 ≤ row) × (row < 76) × (length out.old ≡ 120) × Matches (opens (word_at row)) (spelling (word_at row)) s.now n }
    ensures { Spoken line_plan s.now 0 out.new result }
{
    match row {
        70 => comment_line(s, n, out),
        71 => org_line(s, n, out),
        72 => bytes_line(s, n, out),
        73 => words_line(s, n, out),
        74 => align_line(s, n, out),
        _ => Ok(put(out, 0, 4)),
    }
}

// A line without its line feed, whatever its length.
pub fn read_line(s: &[u8], out: &mut [u8; 120]) -> Told
    requires { length out.old ≡ 120 }
    ensures { Answers s.now out.new result }
{
    match begin(s) {
        Begun::Global => global_line(s, 1, out),
        Begun::Local => local_line(s, 2, out),
        Begun::Row(row, n) => {
            if row < 70 {
                return form_line(s, n, row, out);
            }
            dot_line(s, n, row, out)
        }
        Begun::Nothing(c) => Err(c),
    }
}
