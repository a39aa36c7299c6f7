// The FEN writer, after board_builder.rs: a record's text, written into a lent room.
#![tactic(auto)]

mod text;

ghost use Rattle.std.specs.Prelude.{◌≡◌, ◌≤◌, true, length};
ghost use Rattle.answer.specs.Answer.{write_answer, write_bytes};
ghost use Rattle.board_builder.specs.BoardBuilder.{in_range, last_count};
ghost use Rattle.fen_text.specs.Write.{fen_text, full_text, fen_check};
ghost use Rattle.fen_writer.specs.CodeTexts.{text_with};

use answer::{Answer, OUT_OF_RANGE};
use board_builder::BoardBuilder;

// Writes the record's FEN with two counters to the front of `out`. Checks 5, then 7.
fn write(board: BoardBuilder, half: u16, full: u16, out: &mut [u8]) -> Answer
    requires { in_range board ≡ true → (half ≤ last_count) × (full ≤ last_count) }
    ensures answer { result ≡ write_answer (fen_check board) (text_with board half full) (length out.old) }
    ensures bytes { out.new ≡ write_bytes (fen_check board) (text_with board half full) out.old }
{
    let pieces = board.pieces;
    if !board.in_range() {
        return answer::refused(OUT_OF_RANGE);
    }
    let mut bytes = [0u8; 91];
    let length = text::text(&mut bytes, &pieces, board, half, full);
    answer::write_text(&bytes[..length], out)
}

// Writes the record's FEN to the front of `out`, with the counters 0 and 1. Checks 5, then 7.
pub fn write_fen(board: BoardBuilder, out: &mut [u8]) -> Answer
    ensures answer { result ≡ write_answer (fen_check board) (fen_text board) (length out.old) }
    ensures bytes { out.new ≡ write_bytes (fen_check board) (fen_text board) out.old }
{
    write(board, 0, 1, out)
}

// The same with the record's own counters.
pub fn write_full(board: BoardBuilder, out: &mut [u8]) -> Answer
    ensures answer { result ≡ write_answer (fen_check board) (full_text board) (length out.old) }
    ensures bytes { out.new ≡ write_bytes (fen_check board) (full_text board) out.old }
{
    write(board, board.half_moves, board.full_moves, out)
}
