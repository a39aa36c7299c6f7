// The legal moves of a record, article by article (FIDE Laws of Chess, 3.1 to 3.10), and a lent list judged by them: definitions and theorems in specs/ and
// proofs/. The code that meets them is in crates legal and judge.
#![tactic(auto)]

// What is owed for a record, its in-check byte and the length of its list, and the first thing that is wrong with what was lent: 0 nothing, 1 an entry that is
// not legal, 2 an entry twice, 3 a legal move that is missing, 4 the byte; with that entry, or the smallest missing move.
#[repr(C)]
#[derive(Clone, Copy)]
pub struct Judged {
    pub number: u64,
    pub in_check: u64,
    pub entries: u64,
    pub wrong: u64,
    pub named: u64,
}
