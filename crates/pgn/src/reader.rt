// A small reader that keeps a text and a place in it together. Each function takes it apart and passes the parts on.
ghost use Rattle.std.specs.Prelude.{◌≡◌};
ghost use Rattle.pgn_text.specs.Walk.{next_move};
ghost use Rattle.pgn.specs.Reader.{placed};

use crate::next;
use pgn_text::PgnMove;

#[derive(Clone, Copy)]
pub struct Reader<'a> {
    pub text: &'a [u8],
    pub offset: u64,
    pub level: u64,
}

impl<'a> Reader<'a> {
    // At the start of a text, outside brackets.
    pub fn new(text: &'a [u8]) -> Reader<'a>
        ensures { result ≡ placed text.entry 0 0 }
    {
        Reader {
            text,
            offset: 0,
            level: 0,
        }
    }

    // The next move from the reader's place.
    pub fn step(self) -> PgnMove
        ensures { result ≡ next_move self.entry.text.now self.entry.offset self.entry.level }
    {
        next(self.text, self.offset, self.level)
    }

    // The same text at another place: behind a move, its start and its length together, and its level.
    pub fn moved(self, offset: u64, level: u64) -> Reader<'a>
        ensures { result ≡ placed self.entry.text offset level }
    {
        Reader {
            text: self.text,
            offset,
            level,
        }
    }
}

// The first move of a text, by a reader of its own: whoever calls this needs no walk by hand.
pub fn first_move(text: &[u8]) -> PgnMove
    ensures { result ≡ next_move text.now 0 0 }
{
    Reader::new(text).step()
}
