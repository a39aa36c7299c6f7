// The positions part of a log, after game.rs: where a position lies, when two are equal, and whether the last equals two earlier ones.
#![tactic(auto)]

ghost use Rattle.std.specs.Prelude.{◌≡◌, List, [], ◌∷◌, ◌++◌, ℕ, ◌/◌, ◌<◌, length, slice_index_or};
ghost use Rattle.answer.specs.Parts.{item};
ghost use Rattle.position.specs.Layout.{position_size, position_of};
ghost use Rattle.position.specs.Repeats.{equal, equals_two_earlier};
ghost use Rattle.position.specs.Places.{places_told, equal_places};

use board_builder::{RECORD_SIZE, SIDE_AT};
use move_list::LONGEST_LIST;

// A record, its counters in two bytes each, the in-check byte, the list's length, and two bytes for each move that a list may have.

pub const HALF_AT: usize = RECORD_SIZE;

pub const FULL_AT: usize = RECORD_SIZE + 2;

pub const CHECK_AT: usize = RECORD_SIZE + 4;

pub const LENGTH_AT: usize = RECORD_SIZE + 5;

pub const MOVES_AT: usize = RECORD_SIZE + 6;

pub const POSITION_SIZE: usize = MOVES_AT + 2 * LONGEST_LIST;

// Position `k`, or as much of it as lies in the part.
pub fn at(ps: &[u8], k: usize) -> &[u8]
    ensures { result.now ≡ item position_size ps.now k }
{
    if ps.len() / POSITION_SIZE < k {
        return &ps[..0];
    }
    answer::front(answer::rest(ps, POSITION_SIZE * k), POSITION_SIZE)
}

// The positions that lie in the part whole.
fn whole(ps: &[u8]) -> &[[u8; POSITION_SIZE]]
    ensures count { length result.now ≡ length ps.now / position_size }
    ensures items { (k : ℕ) → k < length result.now → slice_index_or result.now k [] ≡ item position_size ps.now k }
{
    ps.as_chunks::<POSITION_SIZE>().0
}

// In place: the record, then the list with its length in front. The counters and the in-check byte between them are not looked at. The side comes first, since
// in a game every other position has the other one, and one byte tells those apart.
fn same_position(p: &[u8; POSITION_SIZE], q: &[u8; POSITION_SIZE]) -> bool
    ensures { result ≡ equal (position_of p.now) (position_of q.now) }
{
    if p[SIDE_AT] != q[SIDE_AT] {
        return false;
    }
    if !answer::same_bytes(&p[..RECORD_SIZE], &q[..RECORD_SIZE]) {
        return false;
    }
    let end = MOVES_AT + 2 * (p[LENGTH_AT] as usize);
    answer::same_bytes(&p[LENGTH_AT..end], &q[LENGTH_AT..end])
}

// Whether position `last` equals two earlier ones, none before `first`. Positions that do not lie in the part equal none. Both loops are left by a label at the
// first pair, as document 01 asks ("nested loops .. left by a label").
pub fn equals_two_earlier(ps: &[u8], first: usize, last: usize) -> bool
    ensures { result ≡ equals_two_earlier ps.now first last }
{
    let positions = whole(ps);
    let Some(current) = positions.get(last) else {
        return false;
    };
    let mut found = false;
    'pairs: for i in first..last {
        if same_position(&positions[i], current) {
            for j in first..i {
                if same_position(&positions[j], current) {
                    found = true;
                    break 'pairs;
                }
            }
        }
    }
    found
}

// How many earlier positions equal one, and the numbers of the two earliest; 0 where there is none. Numbers and no Options: the definition `places_told`, which
// the rulings are stated by, says them so.
#[derive(Clone, Copy)]
pub struct Places {
    pub count: u64,
    pub first: u64,
    pub second: u64,
}

// What is told about the numbers so far, with `i` after them.
fn with_place(found: Places, i: usize) -> Places
    requires { found.count < 18446744073709551615 }
    ensures { (l : List ℕ) → found ≡ places_told l → result ≡ places_told (l ++ (i ∷ [])) }
{
    match found.count {
        0 => Places {
            count: 1,
            first: i as u64,
            ..found
        },
        1 => Places {
            count: 2,
            second: i as u64,
            ..found
        },
        count => Places {
            count: count + 1,
            ..found
        },
    }
}

// Which positions from `first` on, before position `last`, equal it. Positions that do not lie in the part equal none.
pub fn equal_places(ps: &[u8], first: usize, last: usize) -> Places
    ensures { result ≡ equal_places ps.now first last }
{
    let mut found = Places {
        count: 0,
        first: 0,
        second: 0,
    };
    let positions = whole(ps);
    let Some(current) = positions.get(last) else {
        return found;
    };
    for i in first..last {
        if same_position(&positions[i], current) {
            found = with_place(found, i);
        }
    }
    found
}
