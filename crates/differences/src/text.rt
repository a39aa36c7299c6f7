// The text that is put together, part by part. `san_writer` has such a text over a smaller room: one type for both would be public, and a public `push` may not
// require that there is room (a rule of the project).
ghost use Rattle.std.specs.Prelude.{◌≡◌, ◌++◌, ◌+◌, ◌≤◌, ℕ, List, [], length, take};
ghost use Rattle.decimal.specs.Decimal.{decimal};
ghost use Rattle.differences_text.specs.Promises.{longest};

use differences_text::MAX_DIFFERENCES;
use std::marker::Model;

#[derive(Drop)]
pub(crate) struct Text {
    bytes: [u8; MAX_DIFFERENCES],
    length: usize,
}

impl Model for Text {
    ghost Value = { List ℕ };

    ghost view = { λ t. take t.length t.bytes };

    ghost invariant = { λ t. t.length ≤ longest };
}

impl Text {
    pub(crate) fn new() -> Self
        ensures { result ≡ [] }
    {
        Text {
            bytes: [0; MAX_DIFFERENCES],
            length: 0,
        }
    }

    pub(crate) fn push(&mut self, part: &[u8])
        requires { length self.old + length part.now ≤ longest }
        ensures { self.new ≡ self.old ++ part.now }
    {
        let end = self.length + part.len();
        self.bytes[self.length..end].copy_from_slice(part);
        self.length = end;
    }

    // In decimal.
    pub(crate) fn push_number(&mut self, number: u64)
        requires { length self.old + length (decimal number) ≤ longest }
        ensures { self.new ≡ self.old ++ decimal number }
    {
        let written = decimal::to_string(number, &mut self.bytes[self.length..]);
        self.length += written.value as usize;
    }

    pub(crate) fn as_bytes(&self) -> &[u8]
        ensures { result.now ≡ self.now }
    {
        &self.bytes[..self.length]
    }
}
