// A lent list of moves, in the host's order: its range, and whether a move is in it.
#![tactic(auto)]

ghost use Rattle.std.specs.Prelude.{◌≡◌};
ghost use Rattle.answer.specs.Numbers.{among};
ghost use Rattle.move_list.specs.MoveList.{over, list_in_range};

// The most entries that a list may have.
pub const LONGEST_LIST: usize = 255;

// By how much an entry is over a bound, 0 if it is not.
pub fn over(x: u16, most: u16) -> u16
    ensures { result ≡ over x most }
{
    x.saturating_sub(most)
}

// At most 255 entries, each a move's number.
pub fn in_range(moves: &[u16]) -> bool
    ensures { result ≡ list_in_range moves.now }
{
    if LONGEST_LIST < moves.len() {
        return false;
    }
    !answer::any_over(moves, &(chess_move::LAST_MOVE as u16))
}

pub fn is_listed(moves: &[u16], m: u64) -> bool
    ensures { result ≡ among m moves.now }
{
    for x in moves {
        if *x as u64 == m {
            return true;
        }
    }
    false
}
