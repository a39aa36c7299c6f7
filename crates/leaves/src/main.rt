// Asks the small functions of squares, rights and boards, which the archive does not have, about everything in range, and prints the answers. A line is a
// function, its arguments, `=`, and each answer: its number, its value, and in brackets what was written. `stdout` has what the crate chess 3.2.0 answers;
// oracle/remake-vectors makes it.
#![tactic(auto)]

mod boards;
mod put;
mod rights;
mod squares;

use board_builder::BoardBuilder;

// Everything that a number can be as an argument: a byte of a text, a square, rights, a colour.
fn ask(rt: &impl Print, n: u8) {
    squares::ask_texts(rt, n);
    if n < 64 {
        squares::ask(rt, n);
        boards::ask(rt, n);
    }
    if n < 4 {
        rights::ask(rt, n);
    }
    if n < 2 {
        put::line(rt, "square::to_my_backrank", n, square::to_my_backrank(n));
    }
}

fn main(rt: HostRuntime) {
    put::text(&rt, "new");
    boards::tell(&rt, BoardBuilder::new());
    put::text(&rt, "default");
    boards::tell(&rt, BoardBuilder::default());
    for n in 0u8..128 {
        ask(&rt, n);
    }
}
