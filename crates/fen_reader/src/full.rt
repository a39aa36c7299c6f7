// The full FEN reader (document 02, order 12): the crate's, and then the two counters.
ghost use Rattle.std.specs.Prelude.{◌≡◌, ℕ, ◌+◌, ◌≤◌, length, drop};
ghost use Rattle.board_builder.specs.BoardBuilder.{with_counters};
ghost use Rattle.fen_text.specs.Token.{place_of, tokens};
ghost use Rattle.fen_text.specs.Read.{fen_of};
ghost use Rattle.fen_text.specs.Full.{numbered, clocked, read_full};

use crate::{lines, refused_at, token};
use answer::{ACCEPTED, BAD_COUNTER};
use board_builder::BoardBuilder;
use fen_text::Fen;

fn with_counters(b: BoardBuilder, half: u16, full: u16) -> Fen
    ensures { result ≡ fen_of (with_counters b half full) }
{
    Fen {
        number: ACCEPTED,
        offset: 0,
        board: BoardBuilder {
            half_moves: half,
            full_moves: full,
            ..b
        },
    }
}

// The sixth token, at the front of `s`, which starts at `at`.
fn full_moves(b: BoardBuilder, half: u16, at: usize, s: &[u8]) -> Fen
    ensures { (long : ℕ) → result ≡ numbered b half long at (tokens s.now) }
{
    let Some(full) = token::counter(token::first(s)) else {
        return refused_at(BAD_COUNTER, at);
    };
    if full == 0 {
        return refused_at(BAD_COUNTER, at);
    }
    with_counters(b, half, full)
}

// The fifth token, at the front of `s`, which starts at `at`, and the sixth, in a text of that length.
fn half_moves(b: BoardBuilder, long: usize, at: usize, s: &[u8]) -> Fen
    requires { at + length s.now ≤ long }
    ensures { result ≡ clocked b long at (tokens s.now) }
{
    let end = token::find(s, b' ');
    let Some(half) = token::counter(answer::front(s, end)) else {
        return refused_at(BAD_COUNTER, at);
    };
    if s.len() <= end {
        return refused_at(BAD_COUNTER, long);
    }
    full_moves(b, half, at + end + 1, token::after(s, end))
}

// What stands after the first space: a placement is long enough to look for it in blocks.
fn behind_placement(text: &[u8]) -> &[u8]
    ensures { result.now ≡ drop (place_of 32 text.now + 1) text.now }
{
    token::after(text, lines::find_from(text, 0, b' '))
}

// A text that the crate's reader accepts has four tokens.
pub fn read_full(text: &[u8]) -> Fen
    ensures { result ≡ read_full text.now }
{
    let fen = crate::read_fen(text);
    if fen.number != ACCEPTED {
        return fen;
    }
    let ep = token::behind(token::behind(behind_placement(text)));
    let end = token::find(ep, b' ');
    if ep.len() <= end {
        return refused_at(BAD_COUNTER, text.len());
    }
    let counters = token::after(ep, end);
    half_moves(fen.board, text.len(), text.len() - counters.len(), counters)
}
