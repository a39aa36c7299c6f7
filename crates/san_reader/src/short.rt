// Reads the commonest texts by their length: a square, with at most two bytes before it and at most a check sign behind it. Such a text needs no
// reading from left to right, and so only few branches; any other is left to text.rt.
ghost use Rattle.std.specs.Prelude.{◌≡◌, ◌≤◌, length};
ghost use Rattle.san_reader.specs.CodeShort.{short_two, short_three, pawn_takes, short_four, short_of, short_text};

use crate::text::{is_check, piece_kind, place_from, square_of};

// What such a text says. Its square counts from 1; 0 says nothing about the text, as FormsAgree of specs/Promises.antt has it: no Option.
#[derive(Clone, Copy)]
pub struct Short {
    pub piece: u8,
    pub file: u8,
    pub rank: u8,
    pub takes: bool,
    pub square: u8,
}

const NOTHING: Short = Short {
    piece: 1,
    file: 0,
    rank: 0,
    takes: false,
    square: 0,
};

// A pawn's square, as `e4`.
fn read_two(a: u8, b: u8) -> Short
    ensures { result ≡ short_two a b }
{
    Short {
        square: square_of(a, b),
        ..NOTHING
    }
}

// A letter and a square, as `Nc3`.
fn read_three(a: u8, b: u8, c: u8) -> Short
    ensures { result ≡ short_three a b c }
{
    let piece = piece_kind(a);
    if piece == 0 {
        return NOTHING;
    }
    Short {
        piece,
        square: square_of(b, c),
        ..NOTHING
    }
}

// A pawn's file, `x` and a square, as `exd5`.
fn pawn_takes(a: u8, b: u8, c: u8, d: u8) -> Short
    ensures { result ≡ pawn_takes a b c d }
{
    let file = place_from(96, a);
    if file == 0 {
        return NOTHING;
    }
    if b != b'x' {
        return NOTHING;
    }
    Short {
        file,
        takes: true,
        square: square_of(c, d),
        ..NOTHING
    }
}

// A letter, then `x`, a file or a rank, and a square, as `Nxc3`, `Nbc3`, `N1c3`.
fn read_four(a: u8, b: u8, c: u8, d: u8) -> Short
    ensures { result ≡ short_four a b c d }
{
    let piece = piece_kind(a);
    if piece == 0 {
        return pawn_takes(a, b, c, d);
    }
    let square = square_of(c, d);
    if b == b'x' {
        return Short {
            piece,
            takes: true,
            square,
            ..NOTHING
        };
    }
    let file = place_from(96, b);
    let rank = place_from(48, b);
    if file + rank == 0 {
        return NOTHING;
    }
    Short {
        piece,
        file,
        rank,
        takes: false,
        square,
    }
}

// The first `n` bytes, if they are such a text.
fn read_first(s: &[u8], n: usize) -> Short
    requires { n ≤ length s.now }
    ensures { result ≡ short_of s.now n }
{
    if n == 3 {
        return read_three(s[0], s[1], s[2]);
    }
    if n == 4 {
        return read_four(s[0], s[1], s[2], s[3]);
    }
    if n == 2 {
        return read_two(s[0], s[1]);
    }
    NOTHING
}

pub fn read_short(s: &[u8]) -> Short
    ensures { result ≡ short_text s.now }
{
    let n = s.len();
    if n == 0 {
        return NOTHING;
    }
    if is_check(s[n - 1]) {
        return read_first(s, n - 1);
    }
    read_first(s, n)
}
