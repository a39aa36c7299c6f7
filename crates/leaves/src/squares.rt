// Squares and their texts.
use crate::put;
use answer::Answer;
use square::PairError;

// The original has one error for every pair that is not a square.
fn answer(pair: Result<u8, PairError>) -> Answer {
    match pair {
        Ok(s) => answer::accepted_byte(s),
        Err(_) => answer::refused(answer::INVALID_SQUARE),
    }
}

pub(crate) fn ask(rt: &impl Print, s: u8) {
    put::line(rt, "square::get_rank", s, square::get_rank(s));
    put::line(rt, "square::get_file", s, square::get_file(s));
    let mut out = [0u8; 2];
    let a = square::to_string(s, &mut out);
    put::text(rt, "square::to_string");
    put::argument(rt, s);
    put::written(rt, a, &out);
    // the rest of a text is dropped
    let longer = [out[0], out[1], b' ', b'1'];
    put::line(
        rt,
        "square::from_str, a tail behind",
        s,
        answer(square::from_str(&longer)),
    );
    // about the other files the original says nothing
    if matches!(s % 8, 0 | 7) {
        put::line(
            rt,
            "castle_rights::rook_square_to_castle_rights",
            s,
            castle_rights::rook_square_to_castle_rights(s),
        );
    }
}

// The text of the byte `a` alone, and on a line every text of `a` and a second byte. ASCII, since the original reads characters.
pub(crate) fn ask_texts(rt: &impl Print, a: u8) {
    let one = [a];
    put::line(rt, "square::from_str", a, answer(square::from_str(&one)));
    put::text(rt, "square::from_str, every second byte");
    put::argument(rt, a);
    put::text(rt, " =");
    for b in 0u8..128 {
        let two = [a, b];
        put::answer(rt, answer(square::from_str(&two)));
    }
    put::text(rt, "\n");
}
