// Boards, as the getters report them.
use crate::put;
use board_builder::BoardBuilder;

// The line's end: side, both rights, the en passant square, and what stands on every square.
pub(crate) fn tell(rt: &impl Print, b: BoardBuilder) {
    put::text(rt, " =");
    put::answer(rt, b.get_side_to_move());
    put::answer(rt, b.get_castle_rights(0));
    put::answer(rt, b.get_castle_rights(1));
    put::answer(rt, b.get_en_passant());
    for s in 0u8..64 {
        put::answer(rt, b.get_piece(s));
    }
    put::text(rt, "\n");
}

// A board of one man on a square. Side, rights and file go through all that they can be, and every file with either side.
pub(crate) fn ask(rt: &impl Print, s: u8) {
    let man = BoardBuilder::new().piece(s, s % 12 + 1).board;
    let side = man.side_to_move(s % 2).board;
    let white = side.castle_rights(0, s / 2 % 4).board;
    let black = white.castle_rights(1, s / 8 % 4).board;
    put::text(rt, "one man");
    put::argument(rt, s);
    tell(rt, black.en_passant(s % 9).board);
}
