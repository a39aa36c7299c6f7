// The settled record, after board.rs: an en passant file that no pawn can use is cleared.
ghost use Rattle.std.specs.Prelude.{◌≡◌, true, ◌≤◌, ◌<◌};
ghost use Rattle.board_builder.specs.BoardBuilder.{in_range};
ghost use Rattle.settled_rules.specs.Settled.{stepped_pawn, own_pawn, settled_file, settled, settled_answer};

use crate::{stepped, stood_beside};
use answer::{ACCEPTED, OUT_OF_RANGE};
use board_builder::{BoardBuilder, Stepped};

// Where the pawn that moved stands.
fn stepped_pawn(side: u8, file: u8) -> u8
    requires { (1 ≤ file) × (file ≤ 8) }
    ensures square { result ≡ stepped_pawn side file }
    ensures below { result < 64 }
{
    if side == 0 {
        32 + (file - 1)
    } else {
        24 + (file - 1)
    }
}

fn own_pawn(side: u8) -> u8
    ensures { result ≡ own_pawn side }
{
    if side == 0 { 1 } else { 7 }
}

// The file as a record has it: 0 if no pawn of the side to move stands beside the one that moved. Most records have none, which is tested first.
fn settled_file(squares: &[u8; 64], side: u8, file: u8) -> u8
    requires { file ≤ 8 }
    ensures { result ≡ settled_file squares.now side file }
{
    if file == 0 {
        return 0;
    }
    if !stood_beside(squares, stepped_pawn(side, file), own_pawn(side)) {
        return 0;
    }
    file
}

fn settle(b: BoardBuilder) -> BoardBuilder
    requires { in_range b ≡ true }
    ensures { result ≡ settled b }
{
    BoardBuilder {
        en_passant: settled_file(&b.pieces, b.side_to_move, b.en_passant),
        ..b
    }
}

// The settled record. Checks 5, and then hands the record back.
pub fn board_settled(b: BoardBuilder) -> Stepped
    ensures { result ≡ settled_answer b }
{
    if !b.in_range() {
        return stepped(OUT_OF_RANGE, b);
    }
    stepped(ACCEPTED, settle(b))
}
