// C-19: which word a line begins with. "Mnemonics compared with C-16's strings": byte by byte, and the longest front that the line has in
// common with any of them is as far as it is good.
#![tactic(auto)]

ghost use Rattle.std.specs.Prelude.{◌≡◌, ◌++◌, ◌&&◌, ℕ, ◌+◌, ◌≤◌, ◌<◌, eqb, length, take, drop};
ghost use Rattle.grammar.specs.Reading.{look};
ghost use Rattle.plans.specs.Fronts.{opens};
ghost use Rattle.openings.specs.Numbered.{word_at, Spells};
ghost use Rattle.openings.specs.Fronting.{ended, Fronted, Started, Begins};

use instruction::tables::operand_count;
use leaves::lexing::look;
use text::{dot_word, mnemonic};

// How far a line goes with a word: it is met, and the line goes on from there; or it is not, and so many bytes are the same.
#[derive(Clone, Copy)]
pub enum Front {
    Whole(usize),
    Part(usize),
}

// The word has ended at i: its own space follows if it opens a line, and nothing if it is one.
fn end_at(opens: bool, i: usize, s: &[u8]) -> Front
    requires { i ≤ length s.now }
    ensures { result ≡ ended opens i (drop i s.now) }
{
    if opens {
        if look(&s[i..]) == b' ' {
            return Front::Whole(i + 1);
        }
        return Front::Part(i);
    }
    if i < s.len() {
        return Front::Part(i);
    }
    Front::Whole(i)
}

// How far the line goes with a word of eight bytes, spaces behind.
fn along(word: &[u8; 8], opens: bool, s: &[u8]) -> Front
    requires { length word.now ≡ 8 }
    ensures { Fronted word.now opens s.now result }
{
    for (i, &c) in word.iter().enumerate() {
        if c == b' ' {
            return end_at(opens, i, s);
        }
        if i >= s.len() || s[i] != c {
            return Front::Part(i);
        }
    }
    end_at(opens, 8, s)
}

// The words by number: the mnemonic of each form; from 70 on `.comment`, `.org`, `.byte`, `.word`, `.align`, each with a space;
// `.comment` alone.
fn opens_at(i: u8) -> bool
    requires { i < 76 }
    ensures { result ≡ opens (word_at i) }
{
    if i < 70 {
        return operand_count(i) > 0;
    }
    i < 75
}

fn word_at(i: u8) -> [u8; 8]
    requires { i < 76 }
    ensures { Spells i result }
{
    if i < 70 {
        return mnemonic(i);
    }
    if i < 75 {
        return dot_word(i - 66);
    }
    dot_word(4)
}

// What a line begins with: a name, a word by its number, which ends there, or none; then so many bytes are good.
#[derive(Clone, Copy)]
pub enum Begun {
    Global,
    Local,
    Row(u8, usize),
    Nothing(usize),
}

fn tabled(s: &[u8]) -> Begun
    ensures { Started s.now result }
{
    let mut far = 0;
    for i in 0..76 {
        let word = word_at(i);
        match along(&word, opens_at(i), s) {
            Front::Whole(n) => {
                return Begun::Row(i, n);
            }
            Front::Part(n) => {
                far = far.max(n);
            }
        }
    }
    Begun::Nothing(far)
}

fn is_local(s: &[u8]) -> bool
    ensures { result ≡ (eqb (look s.now) 46 && eqb (look (drop 1 s.now)) 108) }
{
    s.starts_with(b".l")
}

pub fn begin(s: &[u8]) -> Begun
    ensures { Begins s.now result }
{
    if look(s) == b'g' {
        return Begun::Global;
    }
    if is_local(s) {
        return Begun::Local;
    }
    tabled(s)
}
