// The placement, read in one pass: each byte decides what is set down and which square is filled next.
ghost use Rattle.std.specs.Prelude.{◌≡◌, ◌<◌};
ghost use Rattle.fen_text.specs.Placement.{first_bad};
ghost use Rattle.fen_reader.specs.CodeMarks.{marked};
ghost use Rattle.fen_reader.specs.CodeWalk.{piece_after, step_of, file_next, rank_next, PlacedBy, PlacementWalk};

use crate::marks::{NO_MARK, SLASH_MARK};
use crate::{marks, places, token};

// The marks of men lie between a digit's and a slash's.
const LEAST_MAN: u8 = 16;

const PAST_MEN: u8 = 208;

fn piece_after(mark: u8, old: u8) -> u8
    ensures { result ≡ piece_after mark old }
{
    if mark < LEAST_MAN {
        return old;
    }
    if mark < PAST_MEN { mark / 16 } else { old }
}

fn step_of(mark: u8) -> u8
    ensures { result ≡ step_of mark }
{
    if mark == NO_MARK { 0 } else { mark % 16 }
}

fn file_after(file: usize, mark: u8) -> usize
    requires { file < 8 }
    ensures { result ≡ file_next file mark }
{
    let next = (file + usize::from(step_of(mark))) % 8;
    if mark == SLASH_MARK { 0 } else { next }
}

fn rank_after(rank: usize, mark: u8) -> usize
    requires { rank < 8 }
    ensures { result ≡ rank_next rank mark }
{
    if mark == SLASH_MARK {
        (rank + 7) % 8
    } else {
        rank
    }
}

// Where a text's first token ends, and the pieces that it places, if each of its bytes may stand in a placement.
#[derive(Clone, Copy)]
pub struct Walked {
    pub end: usize,
    pub pieces: Option<[u8; 64]>,
}

// The walk for any token. No branch depends on a byte.
fn walk(token: &[u8], marks: &[u8; 256]) -> Option<[u8; 64]>
    requires { marks.now ≡ marked }
    ensures { PlacedBy token.now result }
{
    let mut pieces = [0u8; 64];
    let mut rank = 7;
    let mut file = 0;
    let mut good = true;
    for b in token {
        let mark = marks[usize::from(*b)];
        let at = rank * 8 + file;
        pieces[at] = piece_after(mark, pieces[at]);
        file = file_after(file, mark);
        rank = rank_after(rank, mark);
        good &= mark != NO_MARK;
    }
    good.then_some(pieces)
}

// By the quick walk if it can tell, else byte by byte.
pub(crate) fn place(text: &[u8]) -> Walked
    ensures { PlacementWalk text.now result }
{
    let mut marks = [NO_MARK; 256];
    marks::mark_all(&mut marks);
    let mut laid = [0u8; 128];
    let stopped = places::lay(text, &marks, &mut laid);
    let mut pieces = [0u8; 64];
    places::files(&mut pieces, &laid);
    if places::tell(text, stopped.at, stopped.end, &laid, &pieces) {
        return Walked {
            end: stopped.end,
            pieces: Some(pieces),
        };
    }
    let end = token::find(text, b' ');
    Walked {
        end,
        pieces: walk(answer::front(text, end), &marks),
    }
}

// The place of the first byte that may not stand in a placement, or the length if there is none.
pub(crate) fn first_bad(token: &[u8]) -> usize
    ensures { result ≡ first_bad token.now }
{
    for (i, b) in token.iter().enumerate() {
        if marks::mark_of(*b) == NO_MARK {
            return i;
        }
    }
    token.len()
}
