// What PGN move text says (document 02, order 8): definitions and theorems in specs/ and proofs/. The code that meets them is in crate pgn.
#![tactic(auto)]

// Bytes that continue a token.
#[derive(Clone, Copy)]
pub enum Run {
    Digits,
    Periods,
    MoveBytes,
    InBraces,
    InLine,
}

// What stands at a place. A token has its first byte and as many more as its number says. LeftOpen and Unknown are tokens and no errors, since the walk of
// specs/Walk.antt gives each token its meaning.
#[derive(Clone, Copy)]
pub enum Token {
    Passed(usize),
    Move(usize),
    Opening,
    Closing,
    Result,
    LeftOpen,
    Unknown,
}

// What the check of a whole text answers: its number with the offset of a refusal, and how many moves there are.
#[repr(C)]
#[derive(Clone, Copy)]
pub struct PgnCount {
    pub number: u64,
    pub offset: u64,
    pub moves: u64,
}

// What a call for the next move answers: its number with the offset of a refusal, whether there is a move, which part of the text holds it, and its
// level.
#[repr(C)]
#[derive(Clone, Copy)]
pub struct PgnMove {
    pub number: u64,
    pub offset: u64,
    pub found: u64,
    pub start: u64,
    pub length: u64,
    pub level: u64,
}

// How many brackets are closed before the next move from a place, and then opened.
#[repr(C)]
#[derive(Clone, Copy)]
pub struct Crossed {
    pub closed: u64,
    pub opened: u64,
}

// What the host's call for the next move answers: both in one. Without a move nothing is crossed.
#[repr(C)]
#[derive(Clone, Copy)]
pub struct PgnNext {
    pub number: u64,
    pub offset: u64,
    pub found: u64,
    pub start: u64,
    pub length: u64,
    pub level: u64,
    pub closed: u64,
    pub opened: u64,
}
