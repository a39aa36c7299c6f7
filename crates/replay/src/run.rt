// What is carried from line to line, the position that a line gives, and what is printed.
ghost use Rattle.std.specs.Prelude.{◌≤◌, IfSome, length};

use crate::text;
use crate::text::Line;
use answer::Answer;
use board_after::board_after;
use board_builder::{
    BLACK_RIGHTS_AT, BoardBuilder, EN_PASSANT_AT, RECORD_SIZE, SIDE_AT, WHITE_RIGHTS_AT,
};
use game_rules::{ACTIONS_LENGTH, Counts, MAX_MOVES, POSITIONS_LENGTH};
use position::POSITION_SIZE;

// Where the counters stand among the 70 numbers of a board.
const HALF_MOVES_AT: usize = RECORD_SIZE;

const FULL_MOVES_AT: usize = RECORD_SIZE + 1;

// One more entry than a list may have, so that 6 can be seen.
const LONGEST_LIST: usize = 256;

// One of the 70 numbers of a board, and what it is set to.
#[derive(Clone, Copy)]
pub(crate) struct Poke {
    pub(crate) at: usize,
    pub(crate) value: u16,
}

// The position that a line gives; its list stands in the front of the room for lists.
#[derive(Clone, Copy)]
pub(crate) struct Given {
    pub(crate) in_check: u8,
    pub(crate) listed: usize,
    // whether the line says the board's counters
    pub(crate) counted: bool,
    pub(crate) board: BoardBuilder,
}

#[derive(Drop)]
pub(crate) struct Run<'a, R> {
    pub(crate) rt: &'a R,
    // the counts that the next call is given
    pub(crate) actions: u64,
    pub(crate) moves: u64,
    // how many bytes of each part the calls are lent
    pub(crate) actions_lent: usize,
    pub(crate) positions_lent: usize,
    // the number that is set in the next board
    pub(crate) poke: Option<Poke>,
    // the room for lists, and the position that texts are asked about; its list stands in the front of the room
    pub(crate) list: [u16; LONGEST_LIST],
    pub(crate) listed: usize,
    pub(crate) board: BoardBuilder,
    ghost fits: { listed ≤ 256 },
}

impl<'a, R: Print> Run<'a, R> {
    pub(crate) fn new(rt: &'a R) -> Run<'a, R> {
        Run {
            rt,
            actions: 0,
            moves: 0,
            actions_lent: ACTIONS_LENGTH,
            positions_lent: POSITIONS_LENGTH,
            poke: None,
            list: [0; LONGEST_LIST],
            listed: 0,
            board: BoardBuilder::new(),
        }
    }

    // Bytes that need not be text. What cannot be written is passed over.
    pub(crate) fn put(&self, bytes: &[u8]) {
        let _ = self.rt.write_all(bytes);
    }

    pub(crate) fn put_answer(&self, a: Answer) {
        let _ = print!(self.rt; "{} {}", a.number, a.value);
    }

    // What a writer wrote, if it did, and the line's end.
    pub(crate) fn put_written(&self, a: Answer, out: &[u8]) {
        if a.number == answer::ACCEPTED {
            self.put(b" ");
            self.put(answer::front(out, a.value as usize));
        }
        self.put(b"\n");
    }

    // Prints what a call answered and takes over its counts.
    pub(crate) fn called(&mut self, c: Counts) {
        let _ = print!(self.rt; "{} {} {}\n", c.number, c.actions, c.moves);
        self.actions = c.actions;
        self.moves = c.moves;
    }

    // The position that words `k` and `k + 1` and the text behind them give.
    pub(crate) fn read_position(&mut self, line: Line, k: usize) -> Option<Given>
        requires { k ≤ 2 }
        ensures { IfSome result (λ g. g.listed ≤ 256) }
    {
        let in_check = line.byte(k);
        // the list is read whatever else the line says: the room keeps it
        let listed = text::read_moves(line.word(k + 1), &mut self.list);
        let words = line.rest(k + 2);
        Some(Given {
            in_check: in_check?,
            listed: listed?,
            counted: says_counters(words),
            board: read_board(words)?,
        })
    }
}

// One of the 70 numbers set; those before the counters are bytes.
pub(crate) fn poked(board: BoardBuilder, poke: Option<Poke>) -> BoardBuilder {
    let Some(Poke { at, value }) = poke else {
        return board;
    };
    let byte = (value % 256) as u8;
    let mut next = board;
    match at {
        SIDE_AT => next.side_to_move = byte,
        WHITE_RIGHTS_AT => next.white_castle_rights = byte,
        BLACK_RIGHTS_AT => next.black_castle_rights = byte,
        EN_PASSANT_AT => next.en_passant = byte,
        HALF_MOVES_AT => next.half_moves = value,
        FULL_MOVES_AT => next.full_moves = value,
        _ => {
            if let Some(piece) = next.pieces.get_mut(at) {
                *piece = byte;
            }
        }
    }
    next
}

// A FEN with its counters, or if it has none as the crate reads it.
pub(crate) fn read_board(text: &[u8]) -> Option<BoardBuilder> {
    let full = fen_reader::full::read_full(text);
    let fen = if full.number == answer::BAD_COUNTER {
        fen_reader::read_fen(text)
    } else {
        full
    };
    if fen.number == answer::ACCEPTED {
        Some(fen.board)
    } else {
        None
    }
}

fn says_counters(text: &[u8]) -> bool {
    fen_reader::full::read_full(text).number == answer::ACCEPTED
}

// The record at the front of some bytes, with its counters; zeros where the bytes are too few.
fn record_at(s: &[u8]) -> BoardBuilder {
    match s.first_chunk::<RECORD_SIZE>() {
        Some(numbers) if POSITION_SIZE <= s.len() => BoardBuilder {
            half_moves: stored_position::half_of(s),
            full_moves: stored_position::full_of(s),
            ..BoardBuilder::from_numbers(numbers)
        },
        _ => BoardBuilder::none(),
    }
}

// The board that a line gives for after a move: where the line does not say the counters, they are those after the move from the log's current position.
pub(crate) fn counted(g: Given, ps: &[u8], moves: u64, m: u64) -> BoardBuilder {
    let mut board = g.board;
    if !g.counted {
        let k = moves.min(MAX_MOVES as u64) as usize;
        let after = board_after(record_at(answer::rest(ps, POSITION_SIZE * k)), m);
        if after.number == answer::ACCEPTED {
            board.half_moves = after.board.half_moves;
            board.full_moves = after.board.full_moves;
        }
    }
    board
}
