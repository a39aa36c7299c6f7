// One position, one name: the key of a FEN text's settled record, in one call.
#![tactic(auto)]

ghost use Rattle.std.specs.Prelude.{◌≡◌, length};
ghost use Rattle.settled.specs.Key.{settled_key, settled_room};

use answer::{ACCEPTED, Placed};

// Writes the key of a text's settled record to the front of `out`. Checks 18, 19, 20 with the place, then 7 with the length needed.
pub fn fen_settled(text: &[u8], out: &mut [u8]) -> Placed
    ensures answer { result ≡ settled_key text.now (length out.old) }
    ensures bytes { out.new ≡ settled_room text.now out.old }
{
    let fen = fen_reader::read_fen(text);
    if fen.number != ACCEPTED {
        return answer::fault_at(fen.number, fen.offset);
    }
    let settled = board_after::settled::board_settled(fen.board);
    let key = fen_writer::write_fen(settled.board, out);
    Placed {
        number: key.number,
        value: key.value,
        offset: 0,
    }
}
