// The FEN reader, after board_builder.rs: a text of four tokens or more is read into a record.
#![tactic(auto)]

pub mod full;
pub mod lines;
mod marks;
pub mod page;
mod placement;
mod places;
mod token;

ghost use Rattle.std.specs.Prelude.{◌≡◌};
ghost use Rattle.fen_text.specs.Read.{side_of, refused_at, sided, read_fen};
ghost use Rattle.fen_reader.specs.CodeWalk.{NoPlacement};

use answer::{ACCEPTED, BAD_PLACEMENT, BAD_SIDE, TOO_FEW_TOKENS};
use board_builder::BoardBuilder;
use fen_text::Fen;

fn refused_at(number: u64, offset: usize) -> Fen
    ensures { result ≡ refused_at number offset }
{
    Fen {
        number,
        offset: offset as u64,
        board: BoardBuilder::none(),
    }
}

// The record of a placement that was read and three more tokens, of which the side's starts at `at`.
fn assemble(at: usize, pieces: [u8; 64], side: &[u8], castling: &[u8], ep: &[u8]) -> Fen
    ensures { result ≡ sided at pieces (side_of side.now) castling.now ep.now }
{
    let Some(side_to_move) = token::side(side) else {
        return refused_at(BAD_SIDE, at);
    };
    let rights = token::rights(castling);
    let en_passant = token::en_passant(ep);
    let board = BoardBuilder {
        pieces,
        side_to_move,
        white_castle_rights: rights.white,
        black_castle_rights: rights.black,
        en_passant,
        half_moves: 0,
        full_moves: 1,
    };
    Fen {
        number: ACCEPTED,
        offset: 0,
        board,
    }
}

// A text whose first token, which ends at `end`, is not a placement: too few tokens are reported first. A bad byte's place is looked for only here, so that
// the walk over a good text carries nothing for it.
fn no_placement(text: &[u8], end: usize) -> Fen
    requires { NoPlacement text.now end }
    ensures { result ≡ read_fen text.now }
{
    if token::spaces(text) < 3 {
        return refused_at(TOO_FEW_TOKENS, text.len());
    }
    refused_at(
        BAD_PLACEMENT,
        placement::first_bad(answer::front(text, end)),
    )
}

// Each byte of the first token must be one of a placement, and three more tokens must follow; what stands behind them is not looked at.
pub fn read_fen(text: &[u8]) -> Fen
    ensures { result ≡ read_fen text.now }
{
    let walked = placement::place(text);
    let end = walked.end;
    let Some(pieces) = walked.pieces else {
        return no_placement(text, end);
    };
    if text.len() <= end {
        return refused_at(TOO_FEW_TOKENS, text.len());
    }
    let from_side = token::after(text, end);
    let side_end = token::find(from_side, b' ');
    if from_side.len() <= side_end {
        return refused_at(TOO_FEW_TOKENS, text.len());
    }
    let from_rights = token::after(from_side, side_end);
    let rights_end = token::find(from_rights, b' ');
    if from_rights.len() <= rights_end {
        return refused_at(TOO_FEW_TOKENS, text.len());
    }
    let from_ep = token::after(from_rights, rights_end);
    let ep_end = token::find(from_ep, b' ');
    assemble(
        end + 1,
        pieces,
        answer::front(from_side, side_end),
        answer::front(from_rights, rights_end),
        answer::front(from_ep, ep_end),
    )
}
