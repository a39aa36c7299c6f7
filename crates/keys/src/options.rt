// What the arguments ask for: options stand before `--`, or anywhere if there is none; `-` is standard input.
ghost use Rattle.std.specs.Prelude.{◌≤◌, length};

use std::env::FillError;
use std::rt::Env;

// The longest word that is read.
pub(crate) const LONGEST_WORD: usize = 4_096;

#[derive(Clone, Copy)]
pub(crate) enum Asked {
    Help,
    Version,
    // the argument's index
    Unknown(usize),
}

// How many words the program was started with, its own name among them, and where `--` stands, or their number.
#[derive(Clone, Copy)]
pub(crate) struct Words {
    pub(crate) count: usize,
    pub(crate) end: usize,
}

impl Words {
    pub(crate) fn read(rt: &impl Env) -> Words {
        let count = word_count(rt);
        let end = (1..count).find(|i| is_end(rt, *i)).unwrap_or(count);
        Words { count, end }
    }

    // The first option decides.
    pub(crate) fn asked(self, rt: &impl Env) -> Option<Asked> {
        (1..self.end).find_map(|i| asked_at(rt, i))
    }

    // Whether no argument names a file: the program's name stands alone, or with the word that ends the options.
    pub(crate) fn names_none(self) -> bool {
        let others = if self.end < self.count { 2 } else { 1 };
        self.count <= others
    }
}

fn word_count(rt: &impl Env) -> usize {
    let mut word = [0u8; LONGEST_WORD];
    for i in 0..usize::MAX {
        if let Err(FillError::NotPresent) = rt.arg(i, &mut word) {
            return i;
        }
    }
    usize::MAX
}

// Puts word `i` to the front of `word` and answers its length; one that is too long is read as an empty one.
pub(crate) fn read_word(rt: &impl Env, i: usize, word: &mut [u8]) -> usize
    ensures { result ≤ length word.old }
{
    rt.arg(i, word).unwrap_or(0)
}

fn is_end(rt: &impl Env, i: usize) -> bool {
    let mut word = [0u8; LONGEST_WORD];
    let n = read_word(rt, i, &mut word);
    matches!(&word[..n], b"--")
}

pub(crate) fn is_standard_input(word: &[u8]) -> bool {
    matches!(word, b"-")
}

// What argument `i`, before `--`, asks for, if it is an option.
fn asked_at(rt: &impl Env, i: usize) -> Option<Asked> {
    let mut word = [0u8; LONGEST_WORD];
    let n = read_word(rt, i, &mut word);
    match &word[..n] {
        b"-" => None,
        b"-h" | b"--help" => Some(Asked::Help),
        b"--version" => Some(Asked::Version),
        [b'-', ..] => Some(Asked::Unknown(i)),
        _ => None,
    }
}
