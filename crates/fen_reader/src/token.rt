// The tokens of a FEN text: where they end, and what the second to the sixth say.
ghost use Rattle.std.specs.Prelude.{◌≡◌, ◌==◌, ◌+◌, ◌<◌, ◌≤◌, SomeIff, position, length, take, drop};
ghost use Rattle.board_builder.specs.BoardBuilder.{last_count};
ghost use Rattle.fen_text.specs.Token.{place_of, tokens};
ghost use Rattle.fen_text.specs.Read.{side_of, en_passant_of};
ghost use Rattle.fen_text.specs.Full.{counter_of};
ghost use Rattle.fen_reader.specs.CodeWalk.{sides_of};

fn position_of(s: &[u8], b: u8) -> Option<usize>
    ensures { result ≡ position (λ x. x == b) s.now }
{
    s.iter().position(|x| *x == b)
}

// The place of the first `b`, or the length where there is none, as the definition `place_of` has it.
pub(crate) fn find(s: &[u8], b: u8) -> usize
    ensures { result ≡ place_of b s.now }
{
    position_of(s, b).unwrap_or(s.len())
}

// How many spaces there are: one less than tokens.
pub(crate) fn spaces(s: &[u8]) -> usize
    ensures { result + 1 ≡ length (tokens s.now) }
{
    let mut n = 0;
    for x in s {
        n += usize::from(*x == b' ');
    }
    n
}

// What stands after the place `at`.
pub(crate) fn after(s: &[u8], at: usize) -> &[u8]
    ensures { result.now ≡ drop (at + 1) s.now }
{
    if at < s.len() {
        let next = at + 1;
        &s[next..]
    } else {
        &s[..0]
    }
}

// 0 for white, 1 for black.
pub(crate) fn side(token: &[u8]) -> Option<u8>
    ensures { SomeIff result (side_of token.now < 2) (side_of token.now) }
{
    if token.len() != 1 {
        return None;
    }
    match token[0] {
        b'w' | b'W' => Some(0),
        b'b' | b'B' => Some(1),
        _ => None,
    }
}

// The rights of both sides.
#[derive(Clone, Copy)]
pub struct Sides {
    pub white: u8,
    pub black: u8,
}

// Each right holds if its letter occurs anywhere in the token.
pub(crate) fn rights(token: &[u8]) -> Sides
    ensures { result ≡ sides_of token.now }
{
    let mut white_king = false;
    let mut white_queen = false;
    let mut black_king = false;
    let mut black_queen = false;
    for b in token {
        white_king |= *b == b'K';
        white_queen |= *b == b'Q';
        black_king |= *b == b'k';
        black_queen |= *b == b'q';
    }
    Sides {
        white: u8::from(white_king) + 2 * u8::from(white_queen),
        black: u8::from(black_king) + 2 * u8::from(black_queen),
    }
}

// The en passant file, from 1, or 0 for none, as a host's record holds it (C interface).
pub(crate) fn en_passant(token: &[u8]) -> u8
    ensures { result ≡ en_passant_of token.now }
{
    match square::from_str(token) {
        Ok(s) => s % 8 + 1,
        Err(_) => 0,
    }
}

// What one to four digits say. By hand: std's parse takes a sign too.
pub(crate) fn counter(token: &[u8]) -> Option<u16>
    ensures { SomeIff result (counter_of token.now ≤ last_count) (counter_of token.now) }
{
    if token.is_empty() {
        return None;
    }
    if 4 < token.len() {
        return None;
    }
    let mut value = 0;
    for b in token {
        if !b.is_ascii_digit() {
            return None;
        }
        value = value * 10 + u16::from(*b - b'0');
    }
    Some(value)
}

// What stands after the first space; nothing where there is none.
pub(crate) fn behind(s: &[u8]) -> &[u8]
    ensures { result.now ≡ drop (place_of 32 s.now + 1) s.now }
{
    after(s, find(s, b' '))
}

// What stands before the first space.
pub(crate) fn first(s: &[u8]) -> &[u8]
    ensures { result.now ≡ take (place_of 32 s.now) s.now }
{
    answer::front(s, find(s, b' '))
}
