// The actions part of a log: its actions by their place.
#![tactic(auto)]

ghost use Rattle.std.specs.Prelude.{◌≡◌};
ghost use Rattle.answer.specs.Parts.{item};
ghost use Rattle.action.specs.Layout.{action_size};
ghost use Rattle.actions.specs.Part.{move_at, moves_in, actions_held, last_action};
ghost use Rattle.actions.specs.CodeCount.{one_if_move};

use action::{ACTION_SIZE, Action};
use chess_move::LAST_MOVE;

// More than any move's number: a number and no Option, since the definition `move_at`, by which all above count moves, says one.
pub const NO_MOVE: u64 = LAST_MOVE + 1;

// Action `i`, or as much of it as lies in the part. `position::at` is as short: what the two share are `front` and `rest`.
fn at(acts: &[u8], i: usize) -> &[u8]
    ensures { result.now ≡ item action_size acts.now i }
{
    if acts.len() / ACTION_SIZE < i {
        return &acts[..0];
    }
    answer::front(answer::rest(acts, ACTION_SIZE * i), ACTION_SIZE)
}

// The number of the move that action `i` makes, or `NO_MOVE`.
pub fn move_at(acts: &[u8], i: usize) -> u64
    ensures { result ≡ move_at acts.now i }
{
    match action::from_bytes(at(acts, i)) {
        Some(Action::MakeMove(m)) => m.number().value,
        _ => NO_MOVE,
    }
}

// 1 for the fields of a move's action, 0 for all others.
fn one_if_move(kind: u8, colour: u8, number: u16) -> usize
    ensures { result ≡ one_if_move kind colour number }
{
    (kind == 1 && colour == 0 && number as u64 <= LAST_MOVE) as usize
}

// How many of the first `n` actions are moves: without a branch and without slicing, so that many actions are taken at a time.
pub fn moves_in(acts: &[u8], n: usize) -> usize
    ensures { result ≡ moves_in acts.now n }
{
    let mut k: usize = 0;
    for i in 0..n.min(acts.len() / ACTION_SIZE) {
        let at = ACTION_SIZE * i;
        k += one_if_move(
            acts[at],
            acts[at + 1],
            u16::from_le_bytes([acts[at + 2], acts[at + 3]]),
        );
    }
    k
}

// Whether the first `n` actions are actions in range.
pub fn all_held(acts: &[u8], n: usize) -> bool
    ensures { result ≡ actions_held acts.now n }
{
    (0..n).all(|i| action::from_bytes(at(acts, i)).is_some())
}

// The last of the first `n` actions.
pub fn last(acts: &[u8], n: usize) -> Option<Action>
    ensures { result ≡ last_action acts.now n }
{
    if n == 0 {
        return None;
    }
    action::from_bytes(at(acts, n - 1))
}
