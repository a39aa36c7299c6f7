// What a SAN text says, which listed move it names, and what a move is called: definitions and theorems in specs/ and proofs/. The code that meets
// them is in crates san_reader, san, san_writer and namer.
#![tactic(auto)]

// What a text says about a move. A kind is 1 to 6; a file and a rank of the source are 1 to 8, or 0 where the text has none,
// as the definitions of this crate have them (place_from, square_at).
#[derive(Clone, Copy)]
pub struct San {
    pub piece: u8,
    pub file: u8,
    pub rank: u8,
    pub takes: bool,
    pub dest: u8,
    pub promotion: u8,
    pub mark: bool,
}

// What a text says, where it says anything: castling, or a move.
#[derive(Clone, Copy)]
pub enum SanText {
    KingSide,
    QueenSide,
    Move(San),
}
