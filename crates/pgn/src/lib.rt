// PGN move text (document 02, order 8): the check of a whole text, and the next move from a place.
#![tactic(auto)]

mod bytes;
mod reader;
mod token;
mod walk;

ghost use Rattle.std.specs.Prelude.{◌≡◌};
ghost use Rattle.pgn_text.specs.Walk.{check, next_move, part, end_count, no_move_found, move_found};
ghost use Rattle.pgn_text.specs.Main.{next_main};
ghost use Rattle.pgn_text.specs.Between.{crossing, across_to, next_across};
ghost use Rattle.pgn.specs.CodeWalkers.{count_of, move_walked};

use answer::{ACCEPTED, TOO_DEEP, UNKNOWN_TOKEN};
use pgn_text::{PgnCount, PgnMove, PgnNext};
pub use reader::{Reader, first_move};
use walk::{ANYWHERE, DEEPEST, NOWHERE, OUTSIDE, Stopped};

fn end_count(counted: usize, number: u64, offset: usize) -> PgnCount
    ensures { result ≡ end_count counted number offset }
{
    let moves = if number == ACCEPTED {
        counted as u64
    } else {
        0
    };
    PgnCount {
        number,
        offset: offset as u64,
        moves,
    }
}

fn no_move(number: u64, offset: u64) -> PgnMove
    ensures { result ≡ no_move_found number offset }
{
    PgnMove {
        number,
        offset,
        found: 0,
        start: 0,
        length: 0,
        level: 0,
    }
}

fn move_at(start: usize, length: usize, level: u64) -> PgnMove
    ensures { result ≡ move_found start length level }
{
    PgnMove {
        number: ACCEPTED,
        offset: 0,
        found: 1,
        start: start as u64,
        length: length as u64,
        level,
    }
}

// The answer of a walk that counted the moves.
fn count_of(w: Stopped) -> PgnCount
    ensures { result ≡ count_of w }
{
    match w {
        Stopped::Found(_, _, _) => end_count(0, ACCEPTED, 0),
        Stopped::Ended(counted, number, offset) => end_count(counted, number, offset),
    }
}

// The answer of a walk that stopped at the first move.
fn move_of(w: Stopped) -> PgnMove
    ensures { result ≡ move_walked w }
{
    match w {
        Stopped::Found(start, length, level) => move_at(start, length, level),
        Stopped::Ended(_, number, offset) => no_move(number, offset as u64),
    }
}

// Checks a whole text and counts its moves.
pub fn check(text: &[u8]) -> PgnCount
    ensures { result ≡ check text.now }
{
    count_of(walk::outward(text, 0, 0, NOWHERE))
}

// The next move from a place, found 1, or that none is left, found 0.
pub fn next(text: &[u8], offset: u64, level: u64) -> PgnMove
    ensures { result ≡ next_move text.now offset level }
{
    if DEEPEST < level {
        return no_move(TOO_DEEP, offset);
    }
    if (text.len() as u64) < offset {
        return no_move(UNKNOWN_TOKEN, offset);
    }
    let place = offset as usize;
    if let Some(size) = walk::near(text, place) {
        return move_at(place + 1, size, level);
    }
    move_of(walk::outward(text, place, level, ANYWHERE))
}

// The next move outside brackets from a place outside brackets. Variations are passed over, and what is wrong in them is refused.
pub fn next_main(text: &[u8], offset: u64) -> PgnMove
    ensures { result ≡ next_main text.now offset }
{
    if (text.len() as u64) < offset {
        return no_move(UNKNOWN_TOKEN, offset);
    }
    let place = offset as usize;
    if let Some(size) = walk::near(text, place) {
        return move_at(place + 1, size, 0);
    }
    move_of(walk::outward(text, place, 0, OUTSIDE))
}

fn across_to(m: PgnMove, closed: u64, opened: u64) -> PgnNext
    ensures { result ≡ across_to m (crossing closed opened) }
{
    PgnNext {
        number: m.number,
        offset: m.offset,
        found: m.found,
        start: m.start,
        length: m.length,
        level: m.level,
        closed,
        opened,
    }
}

// The next move from a place, with the brackets that are closed and then opened before it. As many are closed as the least level has from which the move is
// found; from there its own level is the number of those opened. A second count of the tokens would keep theirs from being part of the walk's loop.
pub fn next_across(text: &[u8], offset: u64, level: u64) -> PgnNext
    ensures { result ≡ next_across text.now offset level }
{
    let met = next(text, offset, level);
    if met.found == 0 {
        return across_to(met, 0, 0);
    }
    for closed in 0..level {
        let lower = next(text, offset, closed);
        if lower.found != 0 {
            return across_to(met, closed, lower.level);
        }
    }
    across_to(met, level, met.level)
}

// The part of a text that holds a move, by its start and its length.
pub fn part(text: &[u8], start: u64, size: u64) -> &[u8]
    ensures { result.now ≡ part text.now start size }
{
    answer::front(answer::rest(text, start as usize), size as usize)
}
