// The move and its coordinate text, after chess_move.rs: source, destination and promotion, as one number, as e2e4 or e7e8q.
#![tactic(auto)]

ghost use Rattle.std.specs.Prelude.{◌≡◌, ◌<◌, SomeIff, length};
ghost use Rattle.answer.specs.Answer.{write_answer, write_bytes};
ghost use Rattle.chess_move.specs.Number.{source_of, dest_of, move_of, number_answer};
ghost use Rattle.chess_move.specs.Coordinate.{promotion_named, with_end, with_dest, read_move, move_text, move_check};

use answer::{Answer, BAD_LIST, INVALID_UCI_MOVE, OUT_OF_RANGE, Placed};
use square::PairError;

// The largest number of a move: h8 to h8 with promotion 6.
pub const LAST_MOVE: u64 = 28_671;

#[derive(Clone, Copy)]
pub struct ChessMove {
    pub source: u8,
    pub dest: u8,
    pub promotion: u8,
}

// The source of a move's number, and its destination.
pub fn source_of(n: u16) -> u8
    ensures { result ≡ source_of n }
{
    (n % 64) as u8
}

pub fn dest_of(n: u16) -> u8
    ensures { result ≡ dest_of n }
{
    (n / 64 % 64) as u8
}

impl ChessMove {
    // The three parts of a number.
    pub fn from_number(n: u16) -> ChessMove
        ensures { result ≡ move_of n }
    {
        ChessMove {
            source: source_of(n),
            dest: dest_of(n),
            promotion: (n / 4096) as u8,
        }
    }

    // The number of a move, or 5 where a part is out of range.
    pub fn number(self) -> Answer
        ensures { result ≡ number_answer self }
    {
        if 63 < self.source {
            return answer::refused(OUT_OF_RANGE);
        }
        if 63 < self.dest {
            return answer::refused(OUT_OF_RANGE);
        }
        if 6 < self.promotion {
            return answer::refused(OUT_OF_RANGE);
        }
        answer::accepted(self.source as u64 + 64 * self.dest as u64 + 4096 * self.promotion as u64)
    }
}

// The promotion that q, r, n or b names.
fn promotion_named(b: u8) -> Option<u64>
    ensures { SomeIff result (0 < promotion_named b) (promotion_named b) }
{
    match b {
        b'q' => Some(5),
        b'r' => Some(4),
        b'n' => Some(2),
        b'b' => Some(3),
        _ => None,
    }
}

// The move of two squares, and of a fifth byte if it is the last.
fn ended(text: &[u8], source: u8, dest: u8) -> Placed
    ensures { result ≡ with_end text.now source dest }
{
    if text.len() != 5 {
        return answer::read_as(source as u64 + 64 * dest as u64);
    }
    let Some(promotion) = promotion_named(text[4]) else {
        return answer::fault_at(INVALID_UCI_MOVE, 4);
    };
    answer::read_as(source as u64 + 64 * dest as u64 + 4096 * promotion)
}

fn with_dest(text: &[u8], source: u8, dest: Result<u8, PairError>) -> Placed
    ensures { result ≡ with_dest text.now source dest }
{
    match dest {
        Ok(s) => ended(text, source, s),
        Err(e) => square::told(2, text.len(), Err(e)),
    }
}

// Reads a coordinate text.
pub fn from_str(text: &[u8]) -> Placed
    ensures { result ≡ read_move text.now }
{
    match square::from_str(text) {
        Ok(s) => with_dest(text, s, square::from_str(answer::rest(text, 2))),
        Err(e) => square::told(0, text.len(), Err(e)),
    }
}

// Writes a move's coordinate text to the front of `out`. Checks 6, then 7.
pub fn to_string(n: u64, out: &mut [u8]) -> Answer
    ensures answer { result ≡ write_answer (move_check n) (move_text n) (length out.old) }
    ensures bytes { out.new ≡ write_bytes (move_check n) (move_text n) out.old }
{
    if LAST_MOVE < n {
        return answer::refused(BAD_LIST);
    }
    let m = ChessMove::from_number(n as u16);
    let text = [
        b'a' + m.source % 8,
        b'1' + m.source / 8,
        b'a' + m.dest % 8,
        b'1' + m.dest / 8,
        square::letter_of_piece(m.promotion + 6),
    ];
    if m.promotion == 0 {
        return answer::write_text(&text[..4], out);
    }
    answer::write_text(&text, out)
}
