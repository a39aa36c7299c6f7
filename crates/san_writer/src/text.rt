// A text that is put together part by part.
ghost use Rattle.std.specs.Prelude.{◌≡◌, ◌++◌, ◌+◌, ◌≤◌, ◌<◌, ℕ, List, [], length, take, option_to_list};
ghost use Rattle.san_text.specs.Name.{optional};

use std::marker::Model;

// Room for 12 bytes, one more than the longest text of a move, since each part is then bounded separately.
const ROOM: usize = 12;

#[derive(Drop)]
pub(crate) struct Text {
    bytes: [u8; ROOM],
    length: usize,
}

impl Model for Text {
    ghost Value = { List ℕ };

    ghost view = { λ t. take t.length t.bytes };

    ghost invariant = { λ t. t.length ≤ 12 };
}

impl Text {
    pub(crate) fn new() -> Self
        ensures { result ≡ [] }
    {
        Text {
            bytes: [0; ROOM],
            length: 0,
        }
    }

    pub(crate) fn push(&mut self, part: &[u8])
        requires { length self.old + length part.now ≤ 12 }
        ensures { self.new ≡ self.old ++ part.now }
    {
        let end = self.length + part.len();
        self.bytes[self.length..end].copy_from_slice(part);
        self.length = end;
    }

    pub(crate) fn push_if(&mut self, there: bool, part: &[u8])
        requires { length self.old + length part.now ≤ 12 }
        ensures text { self.new ≡ self.old ++ optional there part.now }
        ensures bound { length self.new ≤ length self.old + length part.now }
    {
        if there {
            self.push(part);
        }
    }

    pub(crate) fn push_letter(&mut self, letter: Option<u8>)
        requires { length self.old < 12 }
        ensures text { self.new ≡ self.old ++ option_to_list letter }
        ensures bound { length self.new ≤ length self.old + 1 }
    {
        if let Some(letter) = letter {
            self.push(&[letter]);
        }
    }

    pub(crate) fn as_bytes(&self) -> &[u8]
        ensures { result.now ≡ self.now }
    {
        &self.bytes[..self.length]
    }
}
