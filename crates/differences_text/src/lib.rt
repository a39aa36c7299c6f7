// What differs between two games (document 02, orders 10 and 12): definitions and theorems in specs/ and proofs/. The code that meets them is in crate
// differences.
#![tactic(auto)]

// The longest text: 64 squares, the six other start numbers and one action, each number in as many digits as it may have.
pub const MAX_DIFFERENCES: usize = 658;
