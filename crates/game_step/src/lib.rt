// A step through a game's move text: the walk, the standard's reader, the board after a move and the FEN writer in turn.
#![tactic(auto)]

ghost use Rattle.std.specs.Prelude.{◌≡◌, length};
ghost use Rattle.san_text.specs.Standard.{from_san_standard};
ghost use Rattle.game_text.specs.Step.{step_end, step_refused, step_played, step_read, bytes_read, play_answer, play_bytes, game_step, game_step_bytes};

use answer::ACCEPTED;
use board_builder::BoardBuilder;
use game_text::GameStep;

fn ended(number: u64, offset: u64, board: BoardBuilder) -> GameStep
    ensures { result ≡ step_end number offset board }
{
    GameStep {
        number,
        offset,
        found: 0,
        start: 0,
        length: 0,
        played: 0,
        key: 0,
        board,
    }
}

fn refused(number: u64, start: u64, length: u64, needed: u64, board: BoardBuilder) -> GameStep
    ensures { result ≡ step_refused number start length needed board }
{
    GameStep {
        number,
        offset: start,
        found: 1,
        start,
        length,
        played: 0,
        key: needed,
        board,
    }
}

fn stepped(start: u64, length: u64, played: u64, key: u64, board: BoardBuilder) -> GameStep
    ensures { result ≡ step_played start length played key board }
{
    GameStep {
        number: ACCEPTED,
        offset: 0,
        found: 1,
        start,
        length,
        played,
        key,
        board,
    }
}

// The move that a text says, played from the record, and the key of the record after it written to the front of `out`; `start` and `size` are handed on.
fn play_said(
    said: &[u8],
    start: u64,
    size: u64,
    board: BoardBuilder,
    moves: &[u16],
    out: &mut [u8],
) -> GameStep
    ensures answer { result ≡ step_read start size board (length out.old) (from_san_standard board moves.now said.now) }
    ensures bytes { out.new ≡ bytes_read board out.old (from_san_standard board moves.now said.now) }
{
    let read = san::from_san_standard(board, moves, said);
    if read.number != ACCEPTED {
        return refused(read.number, start, size, 0, board);
    }
    let after = board_after::board_after(board, read.value);
    let next = after.board;
    let key = fen_writer::write_fen(next, out);
    if key.number != ACCEPTED {
        return refused(key.number, start, size, key.value, board);
    }
    stepped(start, size, read.value, key.value, next)
}

// One move text, played from any record. Checks 5, 6 and 4 of the reader, then 7. A refused move hands its record back.
pub fn play(text: &[u8], board: BoardBuilder, moves: &[u16], out: &mut [u8]) -> GameStep
    ensures answer { result ≡ play_answer text.now board moves.now (length out.old) }
    ensures bytes { out.new ≡ play_bytes text.now board moves.now out.old }
{
    play_said(text, 0, text.len() as u64, board, moves, out)
}

// The next move outside brackets from a place outside brackets, played. Checks 22, 23 and 21 of the walk, and whether a move is left; then as `play`.
pub fn game_step(
    text: &[u8],
    offset: u64,
    board: BoardBuilder,
    moves: &[u16],
    out: &mut [u8],
) -> GameStep
    ensures answer { result ≡ game_step text.now offset board moves.now (length out.old) }
    ensures bytes { out.new ≡ game_step_bytes text.now offset board moves.now out.old }
{
    let place = pgn::next_main(text, offset);
    if place.found == 0 {
        return ended(place.number, place.offset, board);
    }
    let said = pgn::part(text, place.start, place.length);
    play_said(said, place.start, place.length, board, moves, out)
}
