// The evening report over a page of FENs: definitions and theorems in specs/ and proofs/. The code that meets them is in crate report.
#![tactic(auto)]

// At most so many lines.
pub const MOST_LINES: usize = 4096;

// What is reported: 0, 13 or 7; the lines, how many were accepted and refused, the men of each kind on the accepted ones, white pawn to king and black pawn
// to king, and how many accepted lines have the record of an earlier accepted one.
#[repr(C)]
#[derive(Clone, Copy)]
pub struct Report {
    pub number: u64,
    pub lines: u64,
    pub accepted: u64,
    pub refused: u64,
    pub men: [u64; 12],
    pub repeated: u64,
}
