// The game log: its calls and queries, after game.rs. The log lies in two lent parts, and its counts travel by value.
#![tactic(auto)]

ghost use Rattle.std.specs.Prelude.{◌≡◌, ◌+◌, ◌*◌, ◌≤◌, length};
ghost use Rattle.answer.specs.Parts.{written};
ghost use Rattle.action.specs.Layout.{action_size, action_bytes, action_check};
ghost use Rattle.position.specs.Layout.{position_size};
ghost use Rattle.stored_position.specs.Bytes.{position_bytes, position_check, position_given};
ghost use Rattle.game_rules.specs.Limits.{limits};
ghost use Rattle.game_rules.specs.Rules.{make_move, offer_draw, accept_draw, declare_draw, resign};
ghost use Rattle.game_rules.specs.Calls.{
  call_answer,
  counts,
  counts_after,
  actions_after,
  positions_after,
  start_answer,
  positions_begun,
  result_answer,
  claim_answer,
};
ghost use Rattle.game.specs.CodeAnswers.{check_of, moves_on_to, open_check, other_answer, other_counts, other_actions};

use action::{ACTION_SIZE, Action};
use answer::{
    ACCEPTED, Answer, GAME_OVER, LOG_FULL, NOT_LISTED, PART_TOO_SHORT, WRONG_RECORD, WRONG_SIDE,
};
use board_builder::{BoardBuilder, SIDE_AT};
use chess_move::ChessMove;
use ending::GOES_ON;
use game_rules::{ACTIONS_LENGTH, Counts, MAX_ACTIONS, MAX_MOVES, POSITIONS_LENGTH};
use position::POSITION_SIZE;

fn counts(number: u64, n: usize, m: usize) -> Counts
    ensures { result ≡ counts number n m }
{
    Counts {
        number,
        actions: n as u64,
        moves: m as u64,
    }
}

// 16, 9, then 10. A refusal is a number of document 01's table, here and below, since it goes into `Counts` (C interface).
fn open_check(acts: &[u8], ps: &[u8], n: usize, m: usize) -> Result<(), u64>
    ensures { result ≡ check_of (open_check acts.now ps.now n m) }
{
    let log = good_log::check(acts, ps, n, m);
    if log != ACCEPTED {
        return Err(log);
    }
    if ending::result(acts, ps, n, m) != GOES_ON {
        return Err(GAME_OVER);
    }
    Ok(())
}

// Then the call's own checks, for a call without a move, then 13.
fn other_answer(acts: &[u8], ps: &[u8], n: usize, m: usize, action: Action) -> Result<(), u64>
    ensures { result ≡ check_of (other_answer acts.now ps.now n m action) }
{
    open_check(acts, ps, n, m)?;
    let own = good_log::other_check(acts, ps, n, m, action);
    if own != ACCEPTED {
        return Err(own);
    }
    if MAX_ACTIONS <= n {
        return Err(LOG_FULL);
    }
    Ok(())
}

fn put_action(acts: &mut [u8], n: usize, action: Action)
    requires { (action_size * n + action_size ≤ length acts.old) × (action_check action ≡ 0) }
    ensures { acts.new ≡ written acts.old (action_size * n) (action_bytes action) }
{
    let at = ACTION_SIZE * n;
    action::to_bytes(action, &mut acts[at..]);
}

fn put_position(ps: &mut [u8], k: usize, b: BoardBuilder, in_check: u8, list: &[u16])
    requires { (position_size * k + position_size ≤ length ps.old) × (position_check (position_given b in_check list.now) ≡ 0) }
    ensures { ps.new ≡ written ps.old (position_size * k) (position_bytes (position_given b in_check list.now)) }
{
    let at = POSITION_SIZE * k;
    stored_position::to_bytes(b, in_check, list, &mut ps[at..]);
}

// A call without a move: what offers, resignations, accepted and declared draws share.
fn act(acts: &mut [u8], ps: &[u8], n: usize, m: usize, action: Action) -> Counts
    ensures counts { result ≡ other_counts (other_answer acts.old ps.now n m action) n m }
    ensures actions { acts.new ≡ other_actions (other_answer acts.old ps.now n m action) acts.old n action }
{
    if let Err(number) = other_answer(acts, ps, n, m, action) {
        return counts(number, n, m);
    }
    put_action(acts, n, action);
    counts(ACCEPTED, n + 1, m)
}

// Four calls of `act`, since each is a name that a host calls (C interface).

pub fn offer_draw(acts: &mut [u8], ps: &[u8], n: u64, m: u64, colour: u8) -> Counts
    ensures counts { result ≡ counts_after (call_answer limits acts.old ps.now n m (offer_draw colour)) n m (offer_draw colour) }
    ensures actions { acts.new ≡ actions_after (call_answer limits acts.old ps.now n m (offer_draw colour))
        acts.old n (offer_draw colour) }
{
    act(acts, ps, n as usize, m as usize, Action::OfferDraw(colour))
}

// Accepts the offer that stands.
pub fn accept_draw(acts: &mut [u8], ps: &[u8], n: u64, m: u64) -> Counts
    ensures counts { result ≡ counts_after (call_answer limits acts.old ps.now n m accept_draw) n m accept_draw }
    ensures actions { acts.new ≡ actions_after (call_answer limits acts.old ps.now n m accept_draw)
        acts.old n accept_draw }
{
    act(acts, ps, n as usize, m as usize, Action::AcceptDraw)
}

// Declares the draw that may be claimed.
pub fn declare_draw(acts: &mut [u8], ps: &[u8], n: u64, m: u64) -> Counts
    ensures counts { result ≡ counts_after (call_answer limits acts.old ps.now n m declare_draw) n m declare_draw }
    ensures actions { acts.new ≡ actions_after (call_answer limits acts.old ps.now n m declare_draw)
        acts.old n declare_draw }
{
    act(acts, ps, n as usize, m as usize, Action::DeclareDraw)
}

pub fn resign(acts: &mut [u8], ps: &[u8], n: u64, m: u64, colour: u8) -> Counts
    ensures counts { result ≡ counts_after (call_answer limits acts.old ps.now n m (resign colour)) n m (resign colour) }
    ensures actions { acts.new ≡ actions_after (call_answer limits acts.old ps.now n m (resign colour))
        acts.old n (resign colour) }
{
    act(acts, ps, n as usize, m as usize, Action::Resign(colour))
}

// Whether a board is the one after move `x` from the record at the front of `p`, its counters too.
fn moves_on_to(p: &[u8], x: u16, next: BoardBuilder) -> bool
    ensures { result ≡ moves_on_to p.now x next }
{
    if !board_after::leads_to_board(p, x, next) {
        return false;
    }
    board_after::counters_lead(
        p,
        x,
        stored_position::half_of(p),
        stored_position::full_of(p),
        next.half_moves,
        next.full_moves,
    )
}

// Then 11, 5, 6, 12, 24, 13 for a move `x` that leads to the position of `next`, `in_check` and `list`.
fn move_answer(
    acts: &[u8],
    ps: &[u8],
    n: usize,
    m: usize,
    x: u64,
    next: BoardBuilder,
    in_check: u8,
    list: &[u16],
) -> Result<(), u64>
    ensures { result ≡ check_of (call_answer limits acts.now ps.now n m (make_move x (position_given next in_check list.now))) }
{
    open_check(acts, ps, n, m)?;
    let p = position::at(ps, m);
    if !stored_position::lists(p, x) {
        return Err(NOT_LISTED);
    }
    let number = stored_position::check(next, in_check, list);
    if number != ACCEPTED {
        return Err(number);
    }
    if next.side_to_move == answer::byte_at(p, SIDE_AT) {
        return Err(WRONG_SIDE);
    }
    if !moves_on_to(p, x as u16, next) {
        return Err(WRONG_RECORD);
    }
    if MAX_ACTIONS <= n {
        return Err(LOG_FULL);
    }
    if MAX_MOVES <= m {
        return Err(LOG_FULL);
    }
    Ok(())
}

// Plays move `x` of the current list; `next`, `in_check` and `list` are the position after it.
pub fn make_move(
    acts: &mut [u8],
    ps: &mut [u8],
    n: u64,
    m: u64,
    x: u64,
    next: BoardBuilder,
    in_check: u8,
    list: &[u16],
) -> Counts
    ensures counts { result ≡ counts_after
        (call_answer limits acts.old ps.old n m (make_move x (position_given next in_check list.now)))
        n m (make_move x (position_given next in_check list.now)) }
    ensures actions { acts.new ≡ actions_after
        (call_answer limits acts.old ps.old n m (make_move x (position_given next in_check list.now)))
        acts.old n (make_move x (position_given next in_check list.now)) }
    ensures positions { ps.new ≡ positions_after
        (call_answer limits acts.old ps.old n m (make_move x (position_given next in_check list.now)))
        ps.old m (make_move x (position_given next in_check list.now)) }
{
    let actions = n as usize;
    let moves = m as usize;
    if let Err(number) = move_answer(acts, ps, actions, moves, x, next, in_check, list) {
        return counts(number, actions, moves);
    }
    put_action(
        acts,
        actions,
        Action::MakeMove(ChessMove::from_number(x as u16)),
    );
    put_position(ps, moves + 1, next, in_check, list);
    counts(ACCEPTED, actions + 1, moves + 1)
}

// Begins a log with a position: a board, its in-check byte and its list of moves. The actions part is measured and not written.
pub fn start(acts: &[u8], ps: &mut [u8], b: BoardBuilder, in_check: u8, list: &[u16]) -> Counts
    ensures counts { result ≡ counts (start_answer limits acts.now ps.old (position_given b in_check list.now)) 0 0 }
    ensures positions { ps.new ≡ positions_begun
        (start_answer limits acts.now ps.old (position_given b in_check list.now))
        ps.old (position_given b in_check list.now) }
{
    if acts.len() < ACTIONS_LENGTH {
        return counts(PART_TOO_SHORT, 0, 0);
    }
    if ps.len() < POSITIONS_LENGTH {
        return counts(PART_TOO_SHORT, 0, 0);
    }
    // the writer's 5 and 6 are the call's own; its 7 does not come, since the part is long enough
    let put = stored_position::to_bytes(b, in_check, list, ps);
    counts(put.number, 0, 0)
}

// How the game has ended, 1 to 7 in the order of `GameResult`, or 0 if it has not.
pub fn result(acts: &[u8], ps: &[u8], n: u64, m: u64) -> Answer
    ensures { result ≡ result_answer limits acts.now ps.now n m }
{
    let number = good_log::check(acts, ps, n as usize, m as usize);
    if number != ACCEPTED {
        return answer::refused(number);
    }
    answer::accepted(ending::result(acts, ps, n as usize, m as usize))
}

// Whether a draw may be declared, 1 or 0.
pub fn can_declare_draw(acts: &[u8], ps: &[u8], n: u64, m: u64) -> Answer
    ensures { result ≡ claim_answer limits acts.now ps.now n m }
{
    let number = good_log::check(acts, ps, n as usize, m as usize);
    if number != ACCEPTED {
        return answer::refused(number);
    }
    if ending::result(acts, ps, n as usize, m as usize) != GOES_ON {
        return answer::accepted(0);
    }
    if claim::stands(acts, ps, n as usize, m as usize) {
        return answer::accepted(1);
    }
    answer::accepted(0)
}
