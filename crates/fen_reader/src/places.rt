// The quick walk, for a text in which each rank has eight files. Sixteen places a rank, from the eighth down: its eight files, and eight that a slash
// passes over. The walk only sets marks down. A place is set down at most once, so that whatever is wrong with a text can still be seen behind the walk.
ghost use Rattle.std.specs.Prelude.{◌≡◌, true, ◌<◌, replicate};
ghost use Rattle.fen_reader.specs.CodeMarks.{marked};
ghost use Rattle.fen_reader.specs.CodeWalk.{found_from};
ghost use Rattle.fen_reader.specs.CodePlaces.{Laid, Slashes, RankSet, Files, Tells};

use crate::marks::SLASH_MARK;

// The place behind the last rank's files.
const LAST: usize = 120;

// Where a walk stopped: the place to set down next, and the byte.
#[derive(Clone, Copy)]
pub struct Stopped {
    pub at: usize,
    pub end: usize,
}

pub(crate) fn lay(text: &[u8], marks: &[u8; 256], places: &mut [u8; 128]) -> Stopped
    requires { (marks.now ≡ marked) × (places.old ≡ replicate 128 0) }
    ensures { Laid text.now places.new result }
{
    let mut at = 0;
    for (i, b) in text.iter().enumerate() {
        if LAST <= at {
            return Stopped { at, end: i };
        }
        let mark = marks[usize::from(*b)];
        places[at] = mark;
        at += usize::from(mark % 16);
    }
    Stopped {
        at,
        end: text.len(),
    }
}

// Whether a slash stands behind each rank but the last.
fn slashes(places: &[u8; 128]) -> bool
    ensures { result ≡ true → Slashes places.now }
{
    let mut all = true;
    for rank in 0..7 {
        all &= places[rank * 16 + 8] == SLASH_MARK;
    }
    all
}

fn rank_of(pieces: &mut [u8; 64], rank: usize, places: &[u8; 128])
    requires { rank < 8 }
    ensures { RankSet places.now pieces.old pieces.new rank }
{
    for file in 0..8 {
        pieces[rank * 8 + file] = places[(7 - rank) * 16 + file] / 16;
    }
}

// What stands in the files.
pub(crate) fn files(pieces: &mut [u8; 64], places: &[u8; 128])
    ensures { Files places.now pieces.new }
{
    for rank in 0..8 {
        rank_of(pieces, rank, places);
    }
}

// Whether a token ends there.
fn ends(text: &[u8], end: usize) -> bool
    ensures { result ≡ true → found_from 32 text.now end ≡ end }
{
    if text.len() <= end {
        return true;
    }
    text[end] == b' '
}

// Whether the places tell a text's placement: the last rank's files were passed, nothing is wrong with any place, and the token ends there.
pub(crate) fn tell(
    text: &[u8],
    at: usize,
    end: usize,
    places: &[u8; 128],
    pieces: &[u8; 64],
) -> bool
    ensures { result ≡ true → Tells text.now at end places.now pieces.now }
{
    if at != LAST {
        return false;
    }
    if !slashes(places) {
        return false;
    }
    if !answer::all_at_most(pieces, 12) {
        return false;
    }
    ends(text, end)
}
