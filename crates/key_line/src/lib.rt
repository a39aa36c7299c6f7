// The lines of the program keys: a FEN text's key and a newline, or `! N OFFSET` and a newline with the number of the refusal and where the text is wrong.
#![tactic(auto)]

pub mod page;

ghost use Rattle.std.specs.Prelude.{◌≡◌, ◌+◌, ◌≤◌, length};
ghost use Rattle.answer.specs.Answer.{write_answer, write_bytes};
ghost use Rattle.answer.specs.Parts.{written};
ghost use Rattle.answer.specs.CodePushed.{Put};
ghost use Rattle.decimal.specs.Decimal.{decimal};
ghost use Rattle.key_line.specs.KeyLine.{refusal_line, key_line};
ghost use Rattle.key_line.specs.KeyPage.{longest_line, lined_at};

use answer::Answer;

// The longest line: a key of 85 bytes and a newline.
pub const LONGEST: usize = 86;

// The longest refusal: two numbers of up to 20 digits, `!`, two spaces and a newline.
const LONGEST_REFUSAL: usize = 44;

// Puts a number behind the first `n` bytes.
fn push_number(bytes: &mut [u8; LONGEST_REFUSAL], n: usize, number: u64) -> usize
    requires { n ≤ 24 }
    ensures { Put 44 bytes.old n (decimal number) bytes.new result }
{
    let written = decimal::to_string(number, &mut bytes[n..]);
    n + written.value as usize
}

// Writes `! N OFFSET` and a newline.
fn write_refusal(number: u64, offset: u64, out: &mut [u8]) -> Answer
    ensures answer { result ≡ write_answer 0 (refusal_line number offset) (length out.old) }
    ensures bytes { out.new ≡ write_bytes 0 (refusal_line number offset) out.old }
{
    let mut bytes = [0u8; LONGEST_REFUSAL];
    bytes[0] = b'!';
    bytes[1] = b' ';
    let a = push_number(&mut bytes, 2, number);
    bytes[a] = b' ';
    let b = push_number(&mut bytes, a + 1, offset);
    bytes[b] = b'\n';
    answer::write_text(&bytes[..b + 1], out)
}

// Where the answers end with one more line, and whether the line has a key.
#[derive(Clone, Copy)]
pub struct Lined {
    pub ready: usize,
    pub accepted: bool,
}

// Puts the line of a text behind the first `at` bytes of `out`, where there is room for the longest.
pub(crate) fn put_line(line: &[u8], out: &mut [u8], at: usize) -> Lined
    requires { at + longest_line ≤ length out.old }
    ensures answer { result ≡ lined_at at line.now }
    ensures bytes { out.new ≡ written out.old at (key_line line.now) }
    ensures short { length (key_line line.now) ≤ longest_line }
{
    let fen = fen_reader::read_fen(line);
    if fen.number != answer::ACCEPTED {
        let refusal = write_refusal(fen.number, fen.offset, &mut out[at..]);
        return Lined {
            ready: at + refusal.value as usize,
            accepted: false,
        };
    }
    let board = fen.board;
    let key = fen_writer::write_fen(board, &mut out[at..]);
    let end = at + key.value as usize;
    out[end] = b'\n';
    Lined {
        ready: end + 1,
        accepted: true,
    }
}

// Writes the line of a text to the front of `out`, or answers 7 with its length.
pub fn key_line(line: &[u8], out: &mut [u8]) -> Answer
    ensures answer { result ≡ write_answer 0 (key_line line.now) (length out.old) }
    ensures bytes { out.new ≡ write_bytes 0 (key_line line.now) out.old }
{
    let mut text = [0u8; LONGEST];
    let put = put_line(line, &mut text, 0);
    let all = put.ready;
    answer::write_text(&text[..all], out)
}
