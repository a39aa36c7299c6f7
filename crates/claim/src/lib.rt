// The reversible count, the run of positions, and whether a draw may be claimed, after game.rs.
#![tactic(auto)]

ghost use Rattle.std.specs.Prelude.{◌≡◌};
ghost use Rattle.position.specs.Layout.{position_of};
ghost use Rattle.claim.specs.Emptying.{irreversible, rights_differ, empties_run};
ghost use Rattle.claim.specs.Claim.{moves_since, claim_in, claim_at};
ghost use Rattle.claim.specs.CodeBack.{begun_by, run_begun_by};

use action::ACTION_SIZE;
use board_builder::{BLACK_RIGHTS_AT, WHITE_RIGHTS_AT};
use chess_move::LAST_MOVE;
use square::PAWN;

// The reversible moves after which a draw may be claimed.
pub const CLAIM_COUNT: usize = 100;

// The run begins at position `first`; the count is of the moves since position `since`.
#[derive(Clone, Copy)]
pub struct Run {
    pub first: usize,
    pub since: usize,
}

// A pawn on the source, or a man on the destination.
pub fn is_irreversible(p: &[u8], m: u64) -> bool
    ensures { result ≡ irreversible (position_of p.now) m }
{
    let moved = answer::byte_at(p, (m % 64) as usize);
    square::kind_of(moved) == PAWN || answer::byte_at(p, (m / 64 % 64) as usize) != 0
}

fn rights_differ(p: &[u8], q: &[u8]) -> bool
    ensures { result ≡ rights_differ (position_of p.now) (position_of q.now) }
{
    answer::byte_at(p, WHITE_RIGHTS_AT) != answer::byte_at(q, WHITE_RIGHTS_AT)
        || answer::byte_at(p, BLACK_RIGHTS_AT) != answer::byte_at(q, BLACK_RIGHTS_AT)
}

// Whether move `m` from position `p` empties the run and the count, where the position after it has the rights of position `q`.
fn empties(p: &[u8], m: u64, q: &[u8]) -> bool
    ensures { result ≡ empties_run (position_of p.now) m (position_of q.now) }
{
    let undone = is_irreversible(p, m);
    let changed = rights_differ(p, q);
    answer::either(undone, changed)
}

// How many of the first `n` actions there are up to the last one that emptied the run, 0 if none did. Looked for from the end back: no move that was passed
// changed the rights, so that the last position has those of each position after one.
pub fn begun_by(acts: &[u8], ps: &[u8], n: usize) -> usize
    ensures { result ≡ begun_by acts.now ps.now n }
{
    let mut k = actions::moves_in(acts, n);
    let last = position::at(ps, k);
    for i in (0..n).rev() {
        let m = actions::move_at(acts, i);
        if m <= LAST_MOVE {
            if empties(position::at(ps, k - 1), m, last) {
                return i + 1;
            }
            k -= 1;
        }
    }
    0
}

// The run that the first `begun` actions began, and the count with it: what empties one empties the other.
pub fn run_begun(acts: &[u8], begun: usize) -> Run
    ensures { result ≡ run_begun_by acts.now begun }
{
    let k = actions::moves_in(acts, begun);
    Run { first: k, since: k }
}

// How many moves lead from one position to another, 0 if it is not the later one.
pub fn moves_since(since: usize, m: usize) -> usize
    ensures { result ≡ moves_since since m }
{
    m.saturating_sub(since)
}

fn claim_in(ps: &[u8], m: usize, r: Run) -> bool
    ensures { result ≡ claim_in ps.now m r }
{
    CLAIM_COUNT <= moves_since(r.since, m) || position::equals_two_earlier(ps, r.first, m)
}

// Whether a draw may be claimed after the first `n` actions, with position `m` on the board.
pub fn stands(acts: &[u8], ps: &[u8], n: usize, m: usize) -> bool
    ensures { result ≡ claim_at acts.now ps.now n m }
{
    if acts.len() / ACTION_SIZE < n {
        return false;
    }
    claim_in(ps, m, run_begun(acts, begun_by(acts, ps, n)))
}
