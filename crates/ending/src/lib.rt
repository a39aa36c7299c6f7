// How a game has ended, and whether an offer stands, after game.rs.
#![tactic(auto)]

ghost use Rattle.std.specs.Prelude.{◌≡◌};
ghost use Rattle.actions.specs.Part.{last_action};
ghost use Rattle.ending.specs.Ending.{result_without_moves, result_of_action, is_offer, is_offer_by, result_at, offer_at};

use action::{ACTION_SIZE, Action};
use board_builder::SIDE_AT;
use position::{CHECK_AT, LENGTH_AT};

// The results, in the order of `GameResult`; 0 means none. Numbers and no enum: a ruling of the C interface and the definition `result_at` say them so.

pub const GOES_ON: u64 = 0;

pub const WHITE_CHECKMATES: u64 = 1;

pub const WHITE_RESIGNS: u64 = 2;

pub const BLACK_CHECKMATES: u64 = 3;

pub const BLACK_RESIGNS: u64 = 4;

pub const STALEMATE: u64 = 5;

pub const DRAW_ACCEPTED: u64 = 6;

pub const DRAW_DECLARED: u64 = 7;

// The first byte of an offer. A move's is lower, and those of the actions that end a game are higher.
const OFFER: u8 = 2;

fn without_moves(side: u8, check: u8) -> u64
    ensures { result ≡ result_without_moves side check }
{
    if check == 0 {
        return STALEMATE;
    }
    if side == 0 {
        return BLACK_CHECKMATES;
    }
    WHITE_CHECKMATES
}

// How an action has ended the game, or 0.
fn by_last(last: Option<Action>) -> u64
    ensures { result ≡ result_of_action last }
{
    match last {
        Some(Action::AcceptDraw) => DRAW_ACCEPTED,
        Some(Action::DeclareDraw) => DRAW_DECLARED,
        Some(Action::Resign(0)) => WHITE_RESIGNS,
        Some(Action::Resign(_)) => BLACK_RESIGNS,
        _ => GOES_ON,
    }
}

// The same for the last of the first `n` actions. Its first byte settles nearly all of them, without a look at the others.
pub fn by_last_action(acts: &[u8], n: usize) -> u64
    ensures { result ≡ result_of_action (last_action acts.now n) }
{
    if n == 0 {
        return GOES_ON;
    }
    if acts.len() / ACTION_SIZE < n {
        return GOES_ON;
    }
    if acts[ACTION_SIZE * (n - 1)] <= OFFER {
        return GOES_ON;
    }
    by_last(actions::last(acts, n))
}

// The result after the first `n` actions, with position `m` on the board.
pub fn result(acts: &[u8], ps: &[u8], n: usize, m: usize) -> u64
    ensures { result ≡ result_at acts.now ps.now n m }
{
    let p = position::at(ps, m);
    if answer::byte_at(p, LENGTH_AT) == 0 {
        return without_moves(answer::byte_at(p, SIDE_AT), answer::byte_at(p, CHECK_AT));
    }
    by_last_action(acts, n)
}

fn is_offer(last: Option<Action>) -> bool
    ensures { result ≡ is_offer last }
{
    matches!(last, Some(Action::OfferDraw(_)))
}

fn is_offer_by(colour: u8, earlier: Option<Action>) -> bool
    ensures { result ≡ is_offer_by colour earlier }
{
    matches!(earlier, Some(Action::OfferDraw(offerer)) if offerer == colour)
}

// Whether an offer stands after the first `n` actions, with position `m` on the board.
pub fn offer_stands(acts: &[u8], ps: &[u8], n: usize, m: usize) -> bool
    ensures { result ≡ offer_at acts.now ps.now n m }
{
    if is_offer(actions::last(acts, n)) {
        return true;
    }
    if n == 0 {
        return false;
    }
    let side = answer::byte_at(position::at(ps, m), SIDE_AT);
    let other_side = u8::from(side == 0);
    is_offer_by(other_side, actions::last(acts, n - 1))
}
