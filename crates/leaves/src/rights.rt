// Castling rights.
use crate::put;

fn ask_letters(rt: &impl Print, rights: u8, color: u8) {
    let mut out = [0u8; 2];
    let a = castle_rights::to_string(rights, color, &mut out);
    put::text(rt, "castle_rights::to_string");
    put::argument(rt, rights);
    put::argument(rt, color);
    put::written(rt, a, &out);
}

pub(crate) fn ask(rt: &impl Print, rights: u8) {
    put::line(
        rt,
        "castle_rights::has_kingside",
        rights,
        castle_rights::has_kingside(rights),
    );
    put::line(
        rt,
        "castle_rights::has_queenside",
        rights,
        castle_rights::has_queenside(rights),
    );
    put::line(
        rt,
        "castle_rights::from_index",
        rights,
        castle_rights::from_index(rights),
    );
    ask_letters(rt, rights, 0);
    ask_letters(rt, rights, 1);
}
