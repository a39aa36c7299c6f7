// A mark for each byte of a text: in its low half how many places the byte takes in the quick walk (places.rt), in its high half a piece's code, 0 for a digit,
// 13 for a slash, 15 for any other byte. A byte and no Option, as the definition `byte_mark` has it: both halves of it are added and compared as numbers.
ghost use Rattle.std.specs.Prelude.{◌≡◌, set};
ghost use Rattle.fen_text.specs.Placement.{signs};
ghost use Rattle.fen_reader.specs.CodeMarks.{byte_mark, mark_all};

pub(crate) const SLASH_MARK: u8 = 216;

pub(crate) const NO_MARK: u8 = 241;

pub(crate) fn mark_of(b: u8) -> u8
    ensures { result ≡ byte_mark b }
{
    match b {
        b'1'..=b'8' => b - b'0',
        b'/' => SLASH_MARK,
        b'P' => 17,
        b'N' => 33,
        b'B' => 49,
        b'R' => 65,
        b'Q' => 81,
        b'K' => 97,
        b'p' => 113,
        b'n' => 129,
        b'b' => 145,
        b'r' => 161,
        b'q' => 177,
        b'k' => 193,
        _ => NO_MARK,
    }
}

fn mark(marks: &mut [u8; 256], b: u8)
    ensures { marks.new ≡ set marks.old b (byte_mark b) }
{
    marks[b as usize] = mark_of(b);
}

// Notes the mark of each byte that has one. The bytes are constants, so the compiler decides here and the loops over a text only look up.
pub(crate) fn mark_all(marks: &mut [u8; 256])
    ensures { marks.new ≡ mark_all signs marks.old }
{
    mark(marks, b'/');
    mark(marks, b'1');
    mark(marks, b'2');
    mark(marks, b'3');
    mark(marks, b'4');
    mark(marks, b'5');
    mark(marks, b'6');
    mark(marks, b'7');
    mark(marks, b'8');
    mark(marks, b'P');
    mark(marks, b'N');
    mark(marks, b'B');
    mark(marks, b'R');
    mark(marks, b'Q');
    mark(marks, b'K');
    mark(marks, b'p');
    mark(marks, b'n');
    mark(marks, b'b');
    mark(marks, b'r');
    mark(marks, b'q');
    mark(marks, b'k');
}
