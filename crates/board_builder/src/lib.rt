// The board record and its builder, after board_builder.rs: 64 piece codes, the side to move, each side's castling rights, the en passant file; and the
// two counters of a FEN, half-moves without a pawn's move or a capture, and the number of the move.
// A step given a number out of range, its record's too, hands its record back with 5.
#![tactic(auto)]

mod initial;

ghost use Rattle.std.specs.Prelude.{◌≡◌, length};
ghost use Rattle.answer.specs.Answer.{write_answer, write_bytes};
ghost use Rattle.answer.specs.Numbers.{all_at_most, largest};
ghost use Rattle.board_builder.specs.BoardBuilder.{numbers, board_of, counters_in_range, in_range, numbers_in_range, empty_board, no_board, initial_board};
ghost use Rattle.board_builder.specs.Steps.{stepped, set_piece, clear_square, set_side, set_rights, set_en_passant, set_half_moves, set_full_moves};
ghost use Rattle.board_builder.specs.Getters.{piece_on, side_answer, rights_answer, en_passant_square};

use answer::{ACCEPTED, Answer, OUT_OF_RANGE};
use initial::INITIAL;

// How many numbers a record has beside its counters.
pub const RECORD_SIZE: usize = 68;

const SQUARES: usize = 64;

// The largest that a counter may be.
pub const LAST_COUNT: u64 = 9999;

// Where the numbers behind the squares stand.

pub const SIDE_AT: usize = SQUARES;

pub const WHITE_RIGHTS_AT: usize = SQUARES + 1;

pub const BLACK_RIGHTS_AT: usize = SQUARES + 2;

pub const EN_PASSANT_AT: usize = SQUARES + 3;

#[repr(C)]
#[derive(Clone, Copy)]
pub struct BoardBuilder {
    pub pieces: [u8; 64],
    pub side_to_move: u8,
    pub white_castle_rights: u8,
    pub black_castle_rights: u8,
    pub en_passant: u8,
    pub half_moves: u16,
    pub full_moves: u16,
}

// An answer number, and the record after the step.
#[repr(C)]
#[derive(Clone, Copy)]
pub struct Stepped {
    pub number: u64,
    pub board: BoardBuilder,
}

fn largest(s: &[u8]) -> u8
    ensures { result ≡ largest s.now }
{
    let mut most: u8 = 0;
    for x in s {
        most = most.max(*x);
    }
    most
}

// Whether each square holds 0 or a piece code: by the largest of eight ranks, since an early exit reads the record in steps that wait for its copy.
fn codes_in_range(pieces: [u8; 64]) -> bool
    ensures { result ≡ all_at_most 12 pieces }
{
    let mut most: u8 = 0;
    for rank in 0..8 {
        let from = rank * 8;
        most = most.max(largest(&pieces[from..from + 8]));
    }
    most <= 12
}

// Both in one number, as they lie side by side: with two plain tests the log's pass, which asks once, is compiled otherwise and takes 1.03 times as long
// (docs/SPEED.md).
pub fn counters_in_range(half: u16, full: u16) -> bool
    ensures { result ≡ counters_in_range half full }
{
    let both = half as u64 + 65_536 * (full as u64);
    if LAST_COUNT < half as u64 {
        return false;
    }
    if both < 65_536 {
        return false;
    }
    both <= LAST_COUNT + 65_536 * LAST_COUNT
}

// Whether these are the numbers of a record in range, its counters left out.
pub fn numbers_in_range(numbers: &[u8]) -> bool
    ensures { result ≡ numbers_in_range numbers.now }
{
    if numbers.len() != RECORD_SIZE {
        return false;
    }
    if 1 < numbers[SIDE_AT] {
        return false;
    }
    if 3 < numbers[WHITE_RIGHTS_AT] {
        return false;
    }
    if 3 < numbers[BLACK_RIGHTS_AT] {
        return false;
    }
    if 8 < numbers[EN_PASSANT_AT] {
        return false;
    }
    answer::all_at_most(&numbers[..SQUARES], 12)
}

impl BoardBuilder {
    pub fn new() -> Self
        ensures { result ≡ empty_board }
    {
        BoardBuilder {
            pieces: [0u8; 64],
            side_to_move: 0,
            white_castle_rights: 0,
            black_castle_rights: 0,
            en_passant: 0,
            half_moves: 0,
            full_moves: 1,
        }
    }

    // All zeros, which a reader hands out beside a refusal. It is not in range: no move has the number 0.
    pub fn none() -> Self
        ensures { result ≡ no_board }
    {
        BoardBuilder {
            full_moves: 0,
            ..BoardBuilder::new()
        }
    }

    // The initial position.
    pub fn default() -> Self
        ensures { result ≡ initial_board }
    {
        BoardBuilder {
            pieces: INITIAL,
            white_castle_rights: 3,
            black_castle_rights: 3,
            ..BoardBuilder::new()
        }
    }

    // The record that its numbers say, with the counters of an empty one.
    pub fn from_numbers(numbers: &[u8; RECORD_SIZE]) -> Self
        ensures { result ≡ board_of numbers.now }
    {
        BoardBuilder {
            pieces: *numbers.first_chunk::<SQUARES>().unwrap(),
            side_to_move: numbers[SIDE_AT],
            white_castle_rights: numbers[WHITE_RIGHTS_AT],
            black_castle_rights: numbers[BLACK_RIGHTS_AT],
            en_passant: numbers[EN_PASSANT_AT],
            ..BoardBuilder::new()
        }
    }

    // The counters come after the four numbers that lie before them: the other way round some calls take up to 2.6 ns longer (docs/SPEED.md).
    pub fn in_range(self) -> bool
        ensures { result ≡ in_range self }
    {
        let pieces = self.pieces;
        if 1 < self.side_to_move {
            return false;
        }
        if 3 < self.white_castle_rights {
            return false;
        }
        if 3 < self.black_castle_rights {
            return false;
        }
        if 8 < self.en_passant {
            return false;
        }
        if !counters_in_range(self.half_moves, self.full_moves) {
            return false;
        }
        codes_in_range(pieces)
    }

    // The piece code on a square, 0 for none.
    pub fn get_piece(self, square: u8) -> Answer
        ensures { result ≡ piece_on self square }
    {
        if !self.in_range() {
            return answer::refused(OUT_OF_RANGE);
        }
        if 63 < square {
            return answer::refused(OUT_OF_RANGE);
        }
        answer::accepted_byte(self.pieces[square as usize])
    }

    pub fn get_side_to_move(self) -> Answer
        ensures { result ≡ side_answer self }
    {
        if !self.in_range() {
            return answer::refused(OUT_OF_RANGE);
        }
        answer::accepted_byte(self.side_to_move)
    }

    pub fn get_castle_rights(self, color: u8) -> Answer
        ensures { result ≡ rights_answer self color }
    {
        if !self.in_range() {
            return answer::refused(OUT_OF_RANGE);
        }
        match color {
            0 => answer::accepted_byte(self.white_castle_rights),
            1 => answer::accepted_byte(self.black_castle_rights),
            _ => answer::refused(OUT_OF_RANGE),
        }
    }

    // The en passant square, on rank 6 with white to move and rank 3 with black; 0 for none, since a1 is no such square.
    pub fn get_en_passant(self) -> Answer
        ensures { result ≡ en_passant_square self }
    {
        if !self.in_range() {
            return answer::refused(OUT_OF_RANGE);
        }
        let file = self.en_passant;
        if file == 0 {
            return answer::accepted(0);
        }
        if self.side_to_move == 0 {
            return answer::accepted_byte(5 * 8 + (file - 1));
        }
        answer::accepted_byte(2 * 8 + (file - 1))
    }

    fn stepped(self, number: u64) -> Stepped
        ensures { result ≡ stepped number self }
    {
        Stepped {
            number,
            board: self,
        }
    }

    // This and `en_passant` are alike but for the field and its bound: each is a name that a host calls (C interface).
    pub fn side_to_move(mut self, color: u8) -> Stepped
        ensures { result ≡ set_side self color }
    {
        if !self.in_range() {
            return self.stepped(OUT_OF_RANGE);
        }
        if 1 < color {
            return self.stepped(OUT_OF_RANGE);
        }
        self.side_to_move = color;
        self.stepped(ACCEPTED)
    }

    pub fn castle_rights(mut self, color: u8, rights: u8) -> Stepped
        ensures { result ≡ set_rights self color rights }
    {
        if !self.in_range() {
            return self.stepped(OUT_OF_RANGE);
        }
        if 3 < rights {
            return self.stepped(OUT_OF_RANGE);
        }
        if 1 < color {
            return self.stepped(OUT_OF_RANGE);
        }
        if color == 0 {
            self.white_castle_rights = rights;
            return self.stepped(ACCEPTED);
        }
        self.black_castle_rights = rights;
        self.stepped(ACCEPTED)
    }

    // Sets a man of code 1 to 12 on a square, over what stood there.
    pub fn piece(mut self, square: u8, code: u8) -> Stepped
        ensures { result ≡ set_piece self square code }
    {
        if !self.in_range() {
            return self.stepped(OUT_OF_RANGE);
        }
        if 63 < square {
            return self.stepped(OUT_OF_RANGE);
        }
        if code == 0 {
            return self.stepped(OUT_OF_RANGE);
        }
        if 12 < code {
            return self.stepped(OUT_OF_RANGE);
        }
        self.pieces[square as usize] = code;
        self.stepped(ACCEPTED)
    }

    pub fn clear_square(mut self, square: u8) -> Stepped
        ensures { result ≡ clear_square self square }
    {
        if !self.in_range() {
            return self.stepped(OUT_OF_RANGE);
        }
        if 63 < square {
            return self.stepped(OUT_OF_RANGE);
        }
        self.pieces[square as usize] = 0;
        self.stepped(ACCEPTED)
    }

    // Sets the en passant file, 1 to 8 for a to h, or clears it with 0.
    pub fn en_passant(mut self, file: u8) -> Stepped
        ensures { result ≡ set_en_passant self file }
    {
        if !self.in_range() {
            return self.stepped(OUT_OF_RANGE);
        }
        if 8 < file {
            return self.stepped(OUT_OF_RANGE);
        }
        self.en_passant = file;
        self.stepped(ACCEPTED)
    }

    // Sets the half-moves since a pawn's move or a capture.
    pub fn half_moves(mut self, count: u64) -> Stepped
        ensures { result ≡ set_half_moves self count }
    {
        if !self.in_range() {
            return self.stepped(OUT_OF_RANGE);
        }
        if LAST_COUNT < count {
            return self.stepped(OUT_OF_RANGE);
        }
        self.half_moves = count as u16;
        self.stepped(ACCEPTED)
    }

    // Sets the number of the move, from 1.
    pub fn full_moves(mut self, count: u64) -> Stepped
        ensures { result ≡ set_full_moves self count }
    {
        if !self.in_range() {
            return self.stepped(OUT_OF_RANGE);
        }
        if count == 0 {
            return self.stepped(OUT_OF_RANGE);
        }
        if LAST_COUNT < count {
            return self.stepped(OUT_OF_RANGE);
        }
        self.full_moves = count as u16;
        self.stepped(ACCEPTED)
    }

    fn bytes(self) -> [u8; 68]
        ensures { result ≡ numbers self }
    {
        let pieces = self.pieces;
        let mut text = [0u8; 68];
        text[..SQUARES].copy_from_slice(&pieces);
        text[SIDE_AT] = self.side_to_move;
        text[WHITE_RIGHTS_AT] = self.white_castle_rights;
        text[BLACK_RIGHTS_AT] = self.black_castle_rights;
        text[EN_PASSANT_AT] = self.en_passant;
        text
    }

    // Writes the record's numbers, its counters left out, to the front of `out`, one byte each, or answers 7 with their count.
    pub fn to_bytes(self, out: &mut [u8]) -> Answer
        ensures answer { result ≡ write_answer 0 (numbers self) (length out.old) }
        ensures bytes { out.new ≡ write_bytes 0 (numbers self) out.old }
    {
        let text = self.bytes();
        answer::write_text(&text, out)
    }
}
