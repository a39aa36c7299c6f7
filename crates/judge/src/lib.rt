// A lent list of moves and a lent in-check byte, judged by the Laws: what is owed, and the first thing that is wrong.
#![tactic(auto)]

ghost use Rattle.std.specs.Prelude.{◌≡◌, ◌+◌, MatchOption};
ghost use Rattle.move_laws.specs.Judge.{judged_as, outside_at, twice_at, judgement, judged_answer};

use answer::{BAD_LIST, OUT_OF_RANGE};
use board_builder::BoardBuilder;
use move_laws::Judged;

fn finding(number: u64, in_check: u64, entries: u64, wrong: u64, named: u64) -> Judged
    ensures { result ≡ judged_as number in_check entries wrong named }
{
    Judged {
        number,
        in_check,
        entries,
        wrong,
        named,
    }
}

// The first entry of one list that is not in the other.
fn outside(moves: &[u16], list: &[u16]) -> Option<u64>
    ensures { MatchOption result (outside_at list.now moves.now ≡ 0) (λ x. outside_at list.now moves.now ≡ x + 1) }
{
    for m in moves {
        let entry = u64::from(*m);
        if !move_list::is_listed(list, entry) {
            return Some(entry);
        }
    }
    None
}

// The first entry that comes again.
fn twice(list: &[u16]) -> Option<u64>
    ensures { MatchOption result (twice_at list.now ≡ 0) (λ x. twice_at list.now ≡ x + 1) }
{
    for (i, m) in list.iter().enumerate() {
        let entry = u64::from(*m);
        if move_list::is_listed(&list[i + 1..], entry) {
            return Some(entry);
        }
    }
    None
}

// What is wrong goes to C as a number.
fn judge(owed: u64, given: u64, legal: &[u16], list: &[u16]) -> Judged
    ensures { result ≡ judgement owed given legal.now list.now }
{
    let entries = legal.len() as u64;
    if let Some(stray) = outside(list, legal) {
        return finding(0, owed, entries, 1, stray);
    }
    if let Some(again) = twice(list) {
        return finding(0, owed, entries, 2, again);
    }
    if let Some(missing) = outside(legal, list) {
        return finding(0, owed, entries, 3, missing);
    }
    if given != owed {
        return finding(0, owed, entries, 4, 0);
    }
    finding(0, owed, entries, 0, 0)
}

// Checks 5 for the record and the byte, then 6 for the list, then 6 for more than 255 legal moves.
pub fn list_judged(b: BoardBuilder, in_check: u8, list: &[u16]) -> Judged
    ensures { result ≡ judged_answer b in_check list.now }
{
    if !b.in_range() {
        return finding(OUT_OF_RANGE, 0, 0, 0, 0);
    }
    if 1 < in_check {
        return finding(OUT_OF_RANGE, 0, 0, 0, 0);
    }
    if !move_list::in_range(list) {
        return finding(BAD_LIST, 0, 0, 0, 0);
    }
    let mut room = [0u16; 255];
    let written = legal::legal_list(b, &mut room);
    if written.number != 0 {
        return finding(BAD_LIST, 0, 0, 0, 0);
    }
    let owed = legal::in_check(b).value;
    // The room's length is no news, but tells the compiler that a search over the list may read many entries at a time.
    let entries = room.len().min(written.value as usize);
    judge(owed, u64::from(in_check), &room[..entries], list)
}
