// Squares, colours and pieces as document 01 numbers them, after square.rs, rank.rs, file.rs, color.rs and piece.rs.
#![tactic(auto)]

ghost use Rattle.std.specs.Prelude.{◌≡◌, length};
ghost use Rattle.answer.specs.Answer.{write_answer, write_bytes};
ghost use Rattle.square.specs.Square.{make_square, rank_of, file_of, back_rank, square_named, read_square, pair_told, square_text, square_check};
ghost use Rattle.square.specs.Piece.{letter_of, kind_of};

use answer::{Answer, INVALID_SQUARE, INVALID_UCI_MOVE, OUT_OF_RANGE, Placed};

// The kinds of men that have rules of their own. Kinds, colours and squares are numbers and no enums: a host's record holds them as they are (C interface).

pub const PAWN: u8 = 1;

pub const KING: u8 = 6;

// What is wrong with a pair of bytes that names no square.
#[derive(Clone, Copy)]
pub enum PairError {
    BadFile,
    BadRank,
    Missing,
}

pub fn make_square(rank: u8, file: u8) -> Answer
    ensures { result ≡ make_square rank file }
{
    if 8 <= rank {
        return answer::refused(OUT_OF_RANGE);
    }
    if 8 <= file {
        return answer::refused(OUT_OF_RANGE);
    }
    answer::accepted_byte(rank * 8 + file)
}

// Alike but for the operator, as `get_file` is: each is a name that a host calls (C interface).
pub fn get_rank(square: u8) -> Answer
    ensures { result ≡ rank_of square }
{
    if 64 <= square {
        return answer::refused(OUT_OF_RANGE);
    }
    answer::accepted_byte(square / 8)
}

pub fn get_file(square: u8) -> Answer
    ensures { result ≡ file_of square }
{
    if 64 <= square {
        return answer::refused(OUT_OF_RANGE);
    }
    answer::accepted_byte(square % 8)
}

pub fn to_my_backrank(color: u8) -> Answer
    ensures { result ≡ back_rank color }
{
    if 2 <= color {
        return answer::refused(OUT_OF_RANGE);
    }
    answer::accepted_byte(color * 7)
}

// The square that the file letter `a` and the rank digit `b` name. If both are wrong, the file is reported.
pub fn from_bytes(a: u8, b: u8) -> Result<u8, PairError>
    ensures { result ≡ square_named a b }
{
    match a {
        b'a'..=b'h' => match b {
            b'1'..=b'8' => Ok((b - b'1') * 8 + (a - b'a')),
            _ => Err(PairError::BadRank),
        },
        _ => Err(PairError::BadFile),
    }
}

// The square that the first two bytes of a text name; the rest is dropped.
pub fn from_str(text: &[u8]) -> Result<u8, PairError>
    ensures { result ≡ read_square text.now }
{
    if text.len() < 2 {
        return Err(PairError::Missing);
    }
    from_bytes(text[0], text[1])
}

// What is said about a pair that starts at `start` in a text of `long` bytes.
pub fn told(start: u8, long: usize, pair: Result<u8, PairError>) -> Placed
    ensures { result ≡ pair_told start long pair }
{
    match pair {
        Ok(s) => answer::read_as(s as u64),
        Err(PairError::BadFile) => answer::fault_at(INVALID_SQUARE, start as u64),
        Err(PairError::BadRank) => answer::fault_at(INVALID_SQUARE, start as u64 + 1),
        Err(PairError::Missing) => answer::fault_at(INVALID_UCI_MOVE, long as u64),
    }
}

// Writes a square's two bytes to the front of `out`. Checks 5, then 7.
pub fn to_string(square: u8, out: &mut [u8]) -> Answer
    ensures answer { result ≡ write_answer (square_check square) (square_text square) (length out.old) }
    ensures bytes { out.new ≡ write_bytes (square_check square) (square_text square) out.old }
{
    if 64 <= square {
        return answer::refused(OUT_OF_RANGE);
    }
    let text = [b'a' + square % 8, b'1' + square / 8];
    answer::write_text(&text, out)
}

// The FEN letter of a piece code of 1 to 12, 0 for any other number, as the definition `letter_of` has it.
pub fn letter_of_piece(piece: u8) -> u8
    ensures { result ≡ letter_of piece }
{
    match piece {
        1 => b'P',
        2 => b'N',
        3 => b'B',
        4 => b'R',
        5 => b'Q',
        6 => b'K',
        7 => b'p',
        8 => b'n',
        9 => b'b',
        10 => b'r',
        11 => b'q',
        12 => b'k',
        _ => 0,
    }
}

// The kind of man of a piece code, 1 to 6 whatever its colour, 0 for an empty square. No `min` and no subtraction that stops: a black
// man's code is 6 over its kind.
pub fn kind_of(code: u8) -> u8
    ensures { result ≡ kind_of code }
{
    if code <= 6 { code } else { code - 6 }
}
