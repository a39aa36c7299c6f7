// The Laws' count beside the crate's, and what both rulings rest on (document 02, order 5).
#![tactic(auto)]

ghost use Rattle.std.specs.Prelude.{◌≡◌, cond, ◌+◌, leb};
ghost use Rattle.claim.specs.Claim.{claim_count};
ghost use Rattle.game_rules.specs.Limits.{limits};
ghost use Rattle.game_rules.specs.Good.{history_of};
ghost use Rattle.game_rules.specs.Calls.{log_check};
ghost use Rattle.laws.specs.Laws.{laws_claim_stands};
ghost use Rattle.laws.specs.CodeSince.{laws_since};
ghost use Rattle.laws.specs.Ruling.{not_ruled, ruled_on, ruling_answer, laws_answer};

use answer::{ACCEPTED, Answer};
use chess_move::LAST_MOVE;
use claim::CLAIM_COUNT;
use ending::GOES_ON;

// What a ruling rests on: an answer number, both counts, how many earlier positions of the run equal the last and the numbers of the two earliest of
// them, and both claims by reason.
#[repr(C)]
#[derive(Clone, Copy)]
pub struct Ruled {
    pub number: u64,
    pub count: u64,
    pub laws_count: u64,
    pub equals: u64,
    pub first: u64,
    pub second: u64,
    pub claim: u64,
    pub laws_claim: u64,
}

// The position from which the Laws' count runs: back from the last action to one that moved a pawn or captured. `claim::begun_by` walks back so too; one
// function for both would be public and take the test as a closure, which asks a `requires` of a public function (a rule of the project).
fn since(acts: &[u8], ps: &[u8], n: usize) -> usize
    ensures { result ≡ laws_since acts.now ps.now n }
{
    let mut k = actions::moves_in(acts, n);
    for i in (0..n).rev() {
        let m = actions::move_at(acts, i);
        if m <= LAST_MOVE {
            if claim::is_irreversible(position::at(ps, k - 1), m) {
                return k;
            }
            k -= 1;
        }
    }
    0
}

fn not_ruled(number: u64) -> Ruled
    ensures { result ≡ not_ruled number }
{
    Ruled {
        number,
        count: 0,
        laws_count: 0,
        equals: 0,
        first: 0,
        second: 0,
        claim: 0,
        laws_claim: 0,
    }
}

// 1 by a count, 2 by equal positions, 3 by both; 0 if the game has ended.
fn reason(going: bool, count: usize, equals: u64) -> u64
    ensures { result ≡ cond going (cond (leb claim_count count) 1 0 + cond (leb 2 equals) 2 0) 0 }
{
    if !going {
        return 0;
    }
    u64::from(CLAIM_COUNT <= count) + 2 * u64::from(2 <= equals)
}

// For a log that passed its checks. No move of the run moved a pawn or captured, so that the Laws' count is looked for before it.
fn rule(acts: &[u8], ps: &[u8], n: usize, m: usize) -> Ruled
    requires { log_check limits acts.now ps.now n m ≡ 0 }
    ensures { result ≡ ruled_on (history_of acts.now ps.now n) }
{
    let begun = claim::begun_by(acts, ps, n);
    let run = claim::run_begun(acts, begun);
    let count = claim::moves_since(run.since, m);
    let laws = since(acts, ps, begun);
    let laws_count = claim::moves_since(laws, m);
    let places = position::equal_places(ps, run.first, m);
    let going = ending::result(acts, ps, n, m) == GOES_ON;
    let claim = reason(going, count, places.count);
    let laws_claim = reason(going, laws_count, places.count);
    Ruled {
        number: ACCEPTED,
        count: count as u64,
        laws_count: laws_count as u64,
        equals: places.count,
        first: places.first,
        second: places.second,
        claim,
        laws_claim,
    }
}

// What both rulings rest on. Refused: 16, 9.
pub fn ruling(acts: &[u8], ps: &[u8], n: u64, m: u64) -> Ruled
    ensures { result ≡ ruling_answer limits acts.now ps.now n m }
{
    let number = good_log::check(acts, ps, n as usize, m as usize);
    if number != ACCEPTED {
        return not_ruled(number);
    }
    rule(acts, ps, n as usize, m as usize)
}

// A claim by the Laws' count, which is looked at first, or by two earlier positions of the run. For a log that passed its checks.
fn stands(acts: &[u8], ps: &[u8], n: usize, m: usize) -> bool
    requires { log_check limits acts.now ps.now n m ≡ 0 }
    ensures { result ≡ laws_claim_stands (history_of acts.now ps.now n) }
{
    let begun = claim::begun_by(acts, ps, n);
    if CLAIM_COUNT <= claim::moves_since(since(acts, ps, begun), m) {
        return true;
    }
    let run = claim::run_begun(acts, begun);
    position::equals_two_earlier(ps, run.first, m)
}

// Whether a draw may be claimed by the Laws' count, 1 or 0. Refused: 16, 9.
pub fn can_claim(acts: &[u8], ps: &[u8], n: u64, m: u64) -> Answer
    ensures { result ≡ laws_answer limits acts.now ps.now n m }
{
    let number = good_log::check(acts, ps, n as usize, m as usize);
    if number != ACCEPTED {
        return answer::refused(number);
    }
    if ending::result(acts, ps, n as usize, m as usize) != GOES_ON {
        return answer::accepted(0);
    }
    if stands(acts, ps, n as usize, m as usize) {
        return answer::accepted(1);
    }
    answer::accepted(0)
}
