// The walk: a variation holds a sequence, and a sequence may hold variations. Both count the moves, or stop at the first of a level under `stop`.
ghost use Rattle.std.specs.Prelude.{◌≡◌, ◌≤◌, ◌<◌, length, IfSome};
ghost use Rattle.pgn_text.specs.Token.{token_at};
ghost use Rattle.pgn_text.specs.Walk.{deepest};
ghost use Rattle.pgn.specs.CodeWalkers.{at_result, told_from, IsNear, Sequenced, Varied};

use crate::bytes::{is_white, run_length, starts_move};
use crate::token::token_at;
use answer::{ACCEPTED, LEFT_OPEN, TOO_DEEP, UNKNOWN_TOKEN, rest};
use pgn_text::{Run, Token};

// A level is at most this, as the three walkers ask: a number and no type, since a host says it (C interface) and the definitions take any.
pub(crate) const DEEPEST: u64 = 8;

// Where a walk stops: at the first move of a level under these.

pub(crate) const NOWHERE: u64 = 0;

pub(crate) const OUTSIDE: u64 = 1;

pub(crate) const ANYWHERE: u64 = 9;

// Where a walker goes on from, with the moves counted so far.
#[derive(Clone, Copy)]
pub(crate) struct Reached {
    pub at: usize,
    pub count: usize,
}

// Where a whole walk is over: at a move, by its start, its length and its level; or at its end, with the moves counted, an answer number and its offset.
// The number may be 0, as the definition `ended` of `pgn_text` has it: both ways to end are one case there, and so here.
#[derive(Clone, Copy)]
pub(crate) enum Stopped {
    Found(usize, usize, u64),
    Ended(usize, u64, usize),
}

// A result ends the walk outside brackets and is refused inside.
fn at_result(level: u64, count: usize, at: usize) -> Stopped
    ensures { result ≡ at_result level count at }
{
    if level == 0 {
        return Stopped::Ended(count, ACCEPTED, 0);
    }
    Stopped::Ended(count, UNKNOWN_TOKEN, at)
}

// A sequence, to the bracket that closes it or the end of the text. A cursor moves by the length of what stands at it, which no `for` says.
#[cycle(sequence_variation)]
fn sequence(s: &[u8], start: usize, level: u64, moves: usize, stop: u64) -> Result<Reached, Stopped>
    requires start_in_bounds { start ≤ length s.now }
    requires level_le_deepest { level ≤ deepest }
    requires moves_le_start { moves ≤ start }
    ensures { Sequenced s.now stop level start moves result }
{
    let mut at = start;
    let mut count = moves;
    while at < s.len() {
        match token_at(s, at) {
            Token::Passed(n) => at = at + 1 + n,
            Token::Move(n) => {
                if level < stop {
                    return Err(Stopped::Found(at, n + 1, level));
                }
                at = at + 1 + n;
                count += 1;
            }
            Token::Opening => {
                let behind = variation(s, at, level, count, stop)?;
                at = behind.at;
                count = behind.count;
            }
            Token::Closing => return Ok(Reached { at, count }),
            Token::Result => return Err(at_result(level, count, at)),
            Token::LeftOpen => return Err(Stopped::Ended(count, LEFT_OPEN, at)),
            Token::Unknown => return Err(Stopped::Ended(count, UNKNOWN_TOKEN, at)),
        }
    }
    Ok(Reached { at, count })
}

// A variation in a sequence of a level, from its opening bracket past its closing one.
#[cycle(sequence_variation)]
fn variation(s: &[u8], at: usize, level: u64, moves: usize, stop: u64) -> Result<Reached, Stopped>
    requires at_in_bounds { at < length s.now }
    requires at_value { token_at s.now at ≡ Token.Opening }
    requires level_le_deepest { level ≤ deepest }
    requires moves_le_at { moves ≤ at }
    ensures { Varied s.now stop level at moves result }
{
    if DEEPEST <= level {
        return Err(Stopped::Ended(moves, TOO_DEEP, at));
    }
    let end = sequence(s, at + 1, level + 1, moves, stop)?;
    if s.len() <= end.at {
        return Err(Stopped::Ended(end.count, LEFT_OPEN, at));
    }
    Ok(Reached {
        at: end.at + 1,
        count: end.count,
    })
}

// The walk from a place, level by level outward. Brackets opened before the place count as opened there. The turns
// end with the text or a refusal and not only with the levels, so that a `for` over levels would still be left by a `return` in each case.
pub(crate) fn outward(s: &[u8], offset: usize, level: u64, stop: u64) -> Stopped
    requires offset_in_bounds { offset ≤ length s.now }
    requires level_le_deepest { level ≤ deepest }
    ensures { result ≡ told_from s.now stop offset level }
{
    let mut at = offset;
    let mut inside = level;
    let mut count: usize = 0;
    loop {
        let end = match sequence(s, at, inside, count, stop) {
            Ok(end) => end,
            Err(stopped) => return stopped,
        };
        if s.len() <= end.at {
            if inside == 0 {
                return Stopped::Ended(end.count, ACCEPTED, 0);
            }
            return Stopped::Ended(end.count, LEFT_OPEN, offset);
        }
        if inside == 0 {
            return Stopped::Ended(end.count, UNKNOWN_TOKEN, end.at);
        }
        at = end.at + 1;
        inside -= 1;
        count = end.count;
    }
}

// The length of a move that stands one blank behind a place, as most do that follow another. It saves the calls of the walkers.
pub(crate) fn near(s: &[u8], place: usize) -> Option<usize>
    ensures { IfSome result (λ size. IsNear s.now place size) }
{
    if s.len() <= place {
        return None;
    }
    if !is_white(s[place]) {
        return None;
    }
    let at = place + 1;
    if s.len() <= at {
        return None;
    }
    if is_white(s[at]) {
        return None;
    }
    if !starts_move(s[at]) {
        return None;
    }
    Some(run_length(Run::MoveBytes, rest(s, at + 1)) + 1)
}
