// Whether a log is good, in one pass over its used part, after the checks that stand before it.
#![tactic(auto)]

ghost use Rattle.std.specs.Prelude.{◌≡◌, true, ◌≤◌, ◌<◌, length};
ghost use Rattle.answer.specs.Parts.{item};
ghost use Rattle.chess_move.specs.Number.{last_move};
ghost use Rattle.action.specs.Layout.{colour_check};
ghost use Rattle.position.specs.Layout.{position_size};
ghost use Rattle.stored_position.specs.CodeParts.{record_fits};
ghost use Rattle.game_rules.specs.Limits.{limits, actions_length, positions_length};
ghost use Rattle.game_rules.specs.Rules.{unless};
ghost use Rattle.game_rules.specs.Good.{is_good};
ghost use Rattle.game_rules.specs.Calls.{log_check};
ghost use Rattle.good_log.specs.CodeSteps.{other_check, other_fits, other_sound, other_may_stand, move_leads, move_may_stand};

use action::{ACTION_SIZE, Action};
use answer::{ACCEPTED, NO_CLAIM, NO_OFFER, NOT_GOOD, NOT_LISTED, OUT_OF_RANGE, PART_TOO_SHORT};
use chess_move::LAST_MOVE;
use ending::GOES_ON;
use game_rules::{ACTIONS_LENGTH, MAX_ACTIONS, MAX_MOVES, POSITIONS_LENGTH};

fn number_unless(ok: bool, number: u64) -> u64
    ensures { result ≡ unless ok number }
{
    if ok { ACCEPTED } else { number }
}

fn colour_check(colour: u8) -> u64
    ensures { result ≡ colour_check colour }
{
    number_unless(colour <= action::BLACK, OUT_OF_RANGE)
}

// In this crate, and in `ending`, `claim`, `laws` and `game`, both parts and both counts are handed on by themselves, as a host lends and says them (C
// interface): each definition of game_rules' specs/Calls.antt is stated over the four.

// An action's own checks (not a move's) after the first `n` actions with position `m` on the board: 5 for offers and resignations, otherwise 14 or 15.
pub fn other_check(acts: &[u8], ps: &[u8], n: usize, m: usize, action: Action) -> u64
    ensures { result ≡ other_check acts.now ps.now n m action }
{
    match action {
        Action::MakeMove(_) => NOT_LISTED,
        Action::OfferDraw(colour) => colour_check(colour),
        Action::AcceptDraw => number_unless(ending::offer_stands(acts, ps, n, m), NO_OFFER),
        Action::DeclareDraw => number_unless(claim::stands(acts, ps, n, m), NO_CLAIM),
        Action::Resign(colour) => colour_check(colour),
    }
}

fn other_fits(acts: &[u8], ps: &[u8], i: usize, k: usize, stored: Option<Action>) -> bool
    ensures { result ≡ other_fits acts.now ps.now i k stored }
{
    matches!(stored, Some(action) if other_check(acts, ps, i, k, action) == ACCEPTED)
}

// Whether a position whose record is in range lists a move, and what stands after it has the record after the move, whose side is the other one,
// and its counters. That what stands there is a position is tested when a move leaves it.
fn move_leads(p: &[u8], m: u64, q: &[u8]) -> bool
    requires { (m ≤ last_move) × (record_fits p.now ≡ true) }
    ensures { result ≡ move_leads p.now m q.now }
{
    if !stored_position::is_rest_with(p, m as u16) {
        return false;
    }
    if !board_after::leads_to(p, m as u16, q) {
        return false;
    }
    board_after::counters_lead(
        p,
        m as u16,
        stored_position::half_of(p),
        stored_position::full_of(p),
        stored_position::half_of(q),
        stored_position::full_of(q),
    )
}

// Whether move `x` was accepted as the next one, with `k` made before it and `m` in all. Whether the list before it was empty is not tested: no such list
// has it. By `<` and not `!=`, so that the compiler sees that the position after it lies in the part.
fn move_may_stand(ps: &[u8], m: usize, k: usize, x: u64) -> bool
    requires { (m ≤ limits.most_moves) × (x ≤ last_move) × (record_fits (item position_size ps.now k) ≡ true) }
    ensures { result ≡ move_may_stand ps.now m k x }
{
    k < m && move_leads(position::at(ps, k), x, position::at(ps, k + 1))
}

// Whether action `i`, which is not a move, was accepted with `k` moves made before it.
fn other_is_sound(acts: &[u8], ps: &[u8], i: usize, k: usize) -> bool
    requires { i < limits.most_actions }
    ensures { result ≡ other_sound acts.now ps.now i k }
{
    ending::result(acts, ps, i, k) == GOES_ON
        && other_fits(acts, ps, i, k, actions::last(acts, i + 1))
}

// The same for one of `n` actions: if it ends the game, it must be the last. Tested here, so that no move has to look back at the action before it.
fn other_may_stand(acts: &[u8], ps: &[u8], n: usize, i: usize, k: usize) -> bool
    requires { i < limits.most_actions }
    ensures { result ≡ other_may_stand acts.now ps.now n i k }
{
    if !other_is_sound(acts, ps, i, k) {
        return false;
    }
    if i + 1 == n {
        return true;
    }
    ending::by_last_action(acts, i + 1) == GOES_ON
}

// Whether some sequence of accepted calls from a start makes the log. Each position is looked at when a move leaves it, with its list, and the last one at
// the end; but of the records only the first: each other one is in range since it is the one after a move. No action lies past the part: that is
// tested so that the compiler sees that the action's bytes are there.
fn is_good(acts: &[u8], ps: &[u8], n: usize, m: usize) -> bool
    requires { (n ≤ limits.most_actions) × (m ≤ limits.most_moves)
        × (actions_length limits ≤ length acts.now) × (positions_length limits ≤ length ps.now) }
    ensures { result ≡ is_good limits acts.now ps.now n m }
{
    if !stored_position::has_record(position::at(ps, 0)) {
        return false;
    }
    let mut k: usize = 0;
    for i in 0..n {
        if acts.len() / ACTION_SIZE <= i {
            return false;
        }
        let x = actions::move_at(acts, i);
        if x <= LAST_MOVE {
            if !move_may_stand(ps, m, k, x) {
                return false;
            }
            k += 1;
        } else if !other_may_stand(acts, ps, n, i, k) {
            return false;
        }
    }
    k == m && stored_position::is_position(position::at(ps, m))
}

// The checks that stand before each call's and query's own: 16, then 9. A number and no Result: it goes as it is into the answers of the C interface, and the
// definition `log_check` says it.
pub fn check(acts: &[u8], ps: &[u8], n: usize, m: usize) -> u64
    ensures { result ≡ log_check limits acts.now ps.now n m }
{
    if acts.len() < ACTIONS_LENGTH {
        return PART_TOO_SHORT;
    }
    if ps.len() < POSITIONS_LENGTH {
        return PART_TOO_SHORT;
    }
    if MAX_ACTIONS < n {
        return NOT_GOOD;
    }
    if MAX_MOVES < m {
        return NOT_GOOD;
    }
    if is_good(acts, ps, n, m) {
        return ACCEPTED;
    }
    NOT_GOOD
}
