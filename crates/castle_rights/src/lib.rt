// Castling rights, after castle_rights.rs: 0 none, 1 king side, 2 queen side, 3 both. A number out of range is answered 5.
#![tactic(auto)]

ghost use Rattle.std.specs.Prelude.{◌≡◌, ◌<◌, length};
ghost use Rattle.answer.specs.Answer.{write_answer, write_bytes};
ghost use Rattle.castle_rights.specs.CastleRights.{from_index, has_king, has_queen, by_file, square_rights, remove_rights, add_rights, rook_rights};
ghost use Rattle.castle_rights.specs.CastleRights.{letters_of, letters_text, letters_check};

use answer::{Answer, OUT_OF_RANGE};

// Alike but for the operator, as `remove` and `add` are: each is a name that a host calls (C interface).
pub fn has_kingside(rights: u8) -> Answer
    ensures { result ≡ has_king rights }
{
    if 4 <= rights {
        return answer::refused(OUT_OF_RANGE);
    }
    answer::accepted_byte(rights % 2)
}

pub fn has_queenside(rights: u8) -> Answer
    ensures { result ≡ has_queen rights }
{
    if 4 <= rights {
        return answer::refused(OUT_OF_RANGE);
    }
    answer::accepted_byte(rights / 2)
}

// On a back rank: the queen's rook stands on file a, the king on e, the king's rook on h.
fn by_file(file: u8) -> u8
    ensures { result ≡ by_file file }
{
    match file {
        0 => 2,
        4 => 3,
        7 => 1,
        _ => 0,
    }
}

// The rights that go when a piece leaves or enters the square. The colour's own back rank begins at square 0 or 56.
pub fn square_to_castle_rights(color: u8, square: u8) -> Answer
    ensures { result ≡ square_rights color square }
{
    if 2 <= color {
        return answer::refused(OUT_OF_RANGE);
    }
    if 64 <= square {
        return answer::refused(OUT_OF_RANGE);
    }
    let file = square % 8;
    if square == color * 56 + file {
        return answer::accepted_byte(by_file(file));
    }
    answer::accepted(0)
}

pub fn remove(rights: u8, remove: u8) -> Answer
    ensures { result ≡ remove_rights rights remove }
{
    if 4 <= rights {
        return answer::refused(OUT_OF_RANGE);
    }
    if 4 <= remove {
        return answer::refused(OUT_OF_RANGE);
    }
    answer::accepted_byte(rights & !remove)
}

pub fn add(rights: u8, add: u8) -> Answer
    ensures { result ≡ add_rights rights add }
{
    if 4 <= rights {
        return answer::refused(OUT_OF_RANGE);
    }
    if 4 <= add {
        return answer::refused(OUT_OF_RANGE);
    }
    answer::accepted_byte(rights | add)
}

pub fn from_index(i: u8) -> Answer
    ensures { result ≡ from_index i }
{
    if 4 <= i {
        return answer::refused(OUT_OF_RANGE);
    }
    answer::accepted_byte(i)
}

// Writes the letters of the rights that hold, king side first.
fn write_letters(rights: u8, king: u8, queen: u8, out: &mut [u8]) -> Answer
    requires { rights < 4 }
    ensures answer { result ≡ write_answer 0 (letters_of king queen rights) (length out.old) }
    ensures bytes { out.new ≡ write_bytes 0 (letters_of king queen rights) out.old }
{
    let both = [king, queen];
    match rights {
        1 => answer::write_text(&both[..1], out),
        2 => answer::write_text(&both[1..], out),
        3 => answer::write_text(&both, out),
        _ => answer::write_text(&both[..0], out),
    }
}

// Writes a colour's letters to the front of `out`, white's in upper case. Checks 5, then 7.
pub fn to_string(rights: u8, color: u8, out: &mut [u8]) -> Answer
    ensures answer { result ≡ write_answer (letters_check rights color) (letters_text rights color) (length out.old) }
    ensures bytes { out.new ≡ write_bytes (letters_check rights color) (letters_text rights color) out.old }
{
    if 4 <= rights {
        return answer::refused(OUT_OF_RANGE);
    }
    if 2 <= color {
        return answer::refused(OUT_OF_RANGE);
    }
    if color == 0 {
        return write_letters(rights, b'K', b'Q', out);
    }
    write_letters(rights, b'k', b'q', out)
}

// The side that a rook on this square belongs to: file a is the queen's, file h the king's.
pub fn rook_square_to_castle_rights(square: u8) -> Answer
    ensures { result ≡ rook_rights square }
{
    if 64 <= square {
        return answer::refused(OUT_OF_RANGE);
    }
    let file = square % 8;
    match file {
        0 => answer::accepted(2),
        7 => answer::accepted(1),
        _ => answer::refused(OUT_OF_RANGE),
    }
}
