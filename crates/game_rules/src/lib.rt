// What a log is and how its calls are ruled: definitions and theorems in specs/ and proofs/. The code that meets them is in crates good_log and game.
#![tactic(auto)]

use action::ACTION_SIZE;
use position::POSITION_SIZE;

// The limits of a log, and the bytes of its two parts.

pub const MAX_ACTIONS: usize = 8_192;

pub const MAX_MOVES: usize = 4_096;

pub const ACTIONS_LENGTH: usize = ACTION_SIZE * MAX_ACTIONS;

pub const POSITIONS_LENGTH: usize = POSITION_SIZE * (MAX_MOVES + 1);

// An answer number, and the two counts after the call.
#[repr(C)]
#[derive(Clone, Copy)]
pub struct Counts {
    pub number: u64,
    pub actions: u64,
    pub moves: u64,
}
