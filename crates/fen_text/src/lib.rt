// What a FEN text says and how a record is written: definitions and theorems in specs/ and proofs/. The code that meets them is in crates
// fen_reader and fen_writer.
#![tactic(auto)]

use board_builder::BoardBuilder;

// What reading a FEN text answers: 0, 18, 19 or 20; the offset in the text of what is wrong, 0 if nothing is; the record, all zeros where the text is
// refused.
#[repr(C)]
#[derive(Clone, Copy)]
pub struct Fen {
    pub number: u64,
    pub offset: u64,
    pub board: BoardBuilder,
}
