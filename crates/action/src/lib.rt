// The log's action, after game.rs: a move with its struct, an offer or a resignation with a colour, two bare cases. Each takes 4 bytes of the log.
#![tactic(auto)]

ghost use Rattle.std.specs.Prelude.{◌≡◌, length};
ghost use Rattle.answer.specs.Answer.{write_answer, write_bytes};
ghost use Rattle.chess_move.specs.Number.{number_answer};
ghost use Rattle.action.specs.Layout.{fields, colour_check, action_bytes, action_check, moves_here, stands_alone, action_of};

use answer::{ACCEPTED, Answer, OUT_OF_RANGE};
use chess_move::{ChessMove, LAST_MOVE};

pub const ACTION_SIZE: usize = 4;

pub const BLACK: u8 = 1;

#[derive(Clone, Copy)]
pub enum Action {
    MakeMove(ChessMove),
    OfferDraw(u8),
    AcceptDraw,
    DeclareDraw,
    Resign(u8),
}

fn write_move(m: ChessMove, out: &mut [u8]) -> Answer
    ensures answer { result ≡ write_answer (number_answer m).number (fields 1 0 (number_answer m).value) (length out.old) }
    ensures bytes { out.new ≡ write_bytes (number_answer m).number (fields 1 0 (number_answer m).value) out.old }
{
    let n = m.number();
    if n.number != ACCEPTED {
        return answer::refused(OUT_OF_RANGE);
    }
    let [low, high] = (n.value as u16).to_le_bytes();
    answer::write_text(&[1, 0, low, high], out)
}

fn write_colour(kind: u8, colour: u8, out: &mut [u8]) -> Answer
    ensures answer { result ≡ write_answer (colour_check colour) (fields kind colour 0) (length out.old) }
    ensures bytes { out.new ≡ write_bytes (colour_check colour) (fields kind colour 0) out.old }
{
    if BLACK < colour {
        return answer::refused(OUT_OF_RANGE);
    }
    answer::write_text(&[kind, colour, 0, 0], out)
}

// Writes an action to the front of `out`. Checks 5, then 7.
#[tactic(auto, unfolding(crate::specs::Layout::action_bytes, crate::specs::Layout::action_check))]
pub fn to_bytes(action: Action, out: &mut [u8]) -> Answer
    ensures answer { result ≡ write_answer (action_check action) (action_bytes action) (length out.old) }
    ensures bytes { out.new ≡ write_bytes (action_check action) (action_bytes action) out.old }
{
    match action {
        Action::MakeMove(m) => write_move(m, out),
        Action::OfferDraw(colour) => write_colour(2, colour, out),
        Action::AcceptDraw => write_colour(3, 0, out),
        Action::DeclareDraw => write_colour(4, 0, out),
        Action::Resign(colour) => write_colour(5, colour, out),
    }
}

fn move_here(colour: u8, number: u16) -> Option<Action>
    ensures { result ≡ moves_here colour number }
{
    if colour != 0 || LAST_MOVE < number as u64 {
        return None;
    }
    Some(Action::MakeMove(ChessMove::from_number(number)))
}

// An action without a move, whose colour is at most `most`.
fn stands_alone(most: u8, colour: u8, number: u16, action: Action) -> Option<Action>
    ensures { result ≡ stands_alone most colour number action }
{
    if most < colour || number != 0 {
        return None;
    }
    Some(action)
}

// The action whose bytes these are.
#[tactic(auto, unfolding(crate::specs::Layout::action_of))]
pub fn from_bytes(bytes: &[u8]) -> Option<Action>
    ensures { result ≡ action_of bytes.now }
{
    let &[kind, colour, low, high] = bytes else {
        return None;
    };
    let number = u16::from_le_bytes([low, high]);
    match kind {
        1 => move_here(colour, number),
        2 => stands_alone(BLACK, colour, number, Action::OfferDraw(colour)),
        3 => stands_alone(0, colour, number, Action::AcceptDraw),
        4 => stands_alone(0, colour, number, Action::DeclareDraw),
        5 => stands_alone(BLACK, colour, number, Action::Resign(colour)),
        _ => None,
    }
}
