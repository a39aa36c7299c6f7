// Lines: how many a text has, and where they end. No branch depends on a single byte until a block has a newline: many bytes are taken at a time.
ghost use Rattle.std.specs.Prelude.{◌≡◌, ◌+◌, ◌<◌, ◌≤◌, length, drop};
ghost use Rattle.answer.specs.Numbers.{among};
ghost use Rattle.fen_text.specs.Token.{place_of};
ghost use Rattle.fen_text.specs.Lines.{line_end, ended_lines};
ghost use Rattle.fen_text.specs.Page.{line_count};
ghost use Rattle.fen_reader.specs.CodeWalk.{found_from};

use crate::token;

const LINE_FEED: u8 = b'\n';

// The bytes of a block in which a newline is looked for.
const BLOCK: usize = 16;

// The bytes of a block whose newlines are counted in a byte.
const COUNTED: usize = 128;

// The sum is a byte, so that many are taken at a time.
fn newlines_in(block: &[u8]) -> u8
    requires { length block.now < 256 }
    ensures { result ≡ length (ended_lines block.now) }
{
    let mut n = 0;
    for b in block {
        n += u8::from(*b == LINE_FEED);
    }
    n
}

fn newlines(text: &[u8]) -> usize
    ensures { result ≡ length (ended_lines text.now) }
{
    let (blocks, rest) = text.as_chunks::<COUNTED>();
    let mut n = 0;
    for block in blocks {
        n += usize::from(newlines_in(block));
    }
    n + usize::from(newlines_in(rest))
}

// How many lines a text has: an unended last line counts if it has a byte in it.
pub fn line_count(text: &[u8]) -> usize
    ensures { result ≡ line_count text.now }
{
    let n = newlines(text);
    if text.len() == 0 {
        return n;
    }
    if text[text.len() - 1] == LINE_FEED {
        return n;
    }
    n + 1
}

fn has(block: &[u8], b: u8) -> bool
    ensures { result ≡ among b block.now }
{
    let mut hit = 0;
    for x in block {
        hit |= u8::from(*x == b);
    }
    hit != 0
}

// How many bytes the blocks have that stand before the first one with a `b`.
fn passed_over(text: &[u8], b: u8) -> usize
    ensures within { result ≤ length text.now }
    ensures none { place_of b text.now ≡ result + place_of b (drop result text.now) }
{
    let (blocks, _) = text.as_chunks::<BLOCK>();
    for (k, block) in blocks.iter().enumerate() {
        if has(block, b) {
            return k * BLOCK;
        }
    }
    blocks.len() * BLOCK
}

// The place of the first `b` from `from` on, or the text's end.
pub(crate) fn find_from(text: &[u8], from: usize, b: u8) -> usize
    ensures { result ≡ found_from b text.now from }
{
    if text.len() <= from {
        return from;
    }
    let rest = &text[from..];
    let at = passed_over(rest, b);
    from + at + token::find(&rest[at..], b)
}

// Where the line that starts at `from` ends: at its newline, or with the text.
pub fn line_end(text: &[u8], from: usize) -> usize
    ensures { result ≡ line_end text.now from }
{
    find_from(text, from, LINE_FEED)
}
