// A line of a script: its letter, its words, split at each single space as in a FEN, and what numbers these say.
ghost use Rattle.std.specs.Prelude.{◌≤◌, IfSome, length};

pub(crate) fn is_heading(line: &[u8]) -> bool {
    line.starts_with(b"#")
}

// A line that has as many words as its letter asks for.
#[derive(Clone, Copy)]
pub(crate) struct Line<'a> {
    pub(crate) letter: u8,
    text: &'a [u8],
}

impl<'a> Line<'a> {
    // The letter is the line's first word. A text has any number of words.
    pub(crate) fn read(text: &'a [u8]) -> Option<Line<'a>> {
        let [letter] = word(text, 0) else {
            return None;
        };
        let n = text.iter().filter(|b| **b == b' ').count();
        let has_its_words = match *letter {
            b'F' | b'G' | b'C' | b'S' => 1 <= n,
            b'A' => 2 <= n,
            b'a' | b'd' | b'?' | b'L' | b't' => n == 0,
            b'o' | b'r' | b'f' | b'N' => n == 1,
            b'c' | b'l' | b'k' => n == 2,
            b'b' => n == 3,
            b's' | b'p' => 3 <= n,
            b'm' => 4 <= n,
            _ => false,
        };
        if has_its_words {
            Some(Line {
                letter: *letter,
                text,
            })
        } else {
            None
        }
    }

    pub(crate) fn word(self, k: usize) -> &'a [u8] {
        word(self.text, k)
    }

    // The line from word `k` on.
    pub(crate) fn rest(self, k: usize) -> &'a [u8] {
        self.text
            .splitn(k.saturating_add(1), |b| *b == b' ')
            .nth(k)
            .unwrap_or(&[])
    }

    pub(crate) fn number(self, k: usize) -> Option<u64> {
        number(self.word(k))
    }

    pub(crate) fn byte(self, k: usize) -> Option<u8> {
        u8::try_from(self.number(k)?).ok()
    }

    pub(crate) fn short(self, k: usize) -> Option<u16> {
        short(self.word(k))
    }
}

// Word `k`, empty where the line has fewer.
fn word(line: &[u8], k: usize) -> &[u8] {
    line.split(|b| *b == b' ').nth(k).unwrap_or(&[])
}

// A decimal number of 64 bits. std's `parse` would take a sign in front of it too.
fn number(word: &[u8]) -> Option<u64> {
    if word.is_empty() {
        return None;
    }
    let mut n: u64 = 0;
    for b in word {
        if !b.is_ascii_digit() {
            return None;
        }
        n = n.checked_mul(10)?.checked_add((*b - b'0') as u64)?;
    }
    Some(n)
}

fn short(word: &[u8]) -> Option<u16> {
    u16::try_from(number(word)?).ok()
}

// Reads a list into the front of `list`: numbers of 16 bits joined by `,`, or `-` for none.
pub(crate) fn read_moves(word: &[u8], list: &mut [u16]) -> Option<usize>
    ensures { IfSome result (λ n. n ≤ length list.old) }
{
    if matches!(word, b"-") {
        return Some(0);
    }
    let mut count: usize = 0;
    for entry in word.split(|b| *b == b',') {
        *list.get_mut(count)? = short(entry)?;
        count += 1;
    }
    Some(count)
}
