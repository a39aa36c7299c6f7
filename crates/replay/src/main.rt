// Plays a script of calls and prints what the calls answer. A line is a letter and its words, or a heading:
//   # TEXT                  printed as it is
// Texts:
//   F TEXT                  reads a FEN: its number, and the key of the board that was read or the place of what is wrong
//   G TEXT                  the same with its counters: its number, and the full FEN of the board that was read or the place of what is wrong
//   A MOVE FEN              the board after a move: its number, and its full FEN
//   C TEXT                  reads a move in coordinates: its number, and its value and the move written again or the place of what is wrong
//   p CHECK LIST FEN        the position that S and N are asked about; LIST is moves joined by `,`, or `-` for none
//   S TEXT                  reads a move in SAN: number and value
//   N MOVE                  names a move: number and value, and the name
// One game log:
//   s CHECK LIST FEN        start
//   m MOVE CHECK LIST FEN   make_move; the position after it, with the counters that the move gives if the FEN has none
//   o C, r C, a, d          offer_draw and resign by a colour, accept_draw, declare_draw
//   ?                       result and can_declare_draw: two answers, each a number and a value
//   L                       can_claim_by_laws, a number and a value, and the eight numbers of the ruling
//   t                       a checksum of each part
//   c N M                   the counts of actions and moves that the next call is given
//   b a|p OFFSET VALUE      sets a byte of the actions or the positions
//   l A P                   how many bytes of each part the calls are lent from now on
//   f VALUE                 fills both parts past what the counts say is used
//   k AT VALUE              sets one of the 70 numbers of the next board, so that it need not be one that a FEN can say
// A call prints its number and its counts, and the next call is given these counts. A line that is not understood prints `bad line`.
#![tactic(auto)]

mod input;
mod log;
mod part;
mod run;
mod text;
mod texts;

ghost use Rattle.std.specs.Prelude.{◌≤◌, length};

use game_rules::{ACTIONS_LENGTH, POSITIONS_LENGTH};
use input::Input;
use run::Run;
use std::io::Read;
use text::Line;

// Bytes behind each part that a call must not touch.
const SPARE: usize = 100;

const LONGEST_LINE: usize = 8_192;

impl<'a, R: Print> Run<'a, R> {
    // None: the line is not understood.
    fn play_asked(&mut self, text: &[u8], acts: &mut [u8], ps: &mut [u8]) -> Option<()> {
        let line = Line::read(text)?;
        match line.letter {
            b'F' | b'G' | b'A' | b'C' | b'p' | b'S' | b'N' => self.ask(line),
            b't' | b'c' | b'b' | b'l' | b'f' | b'k' => self.set_up(line, acts, ps),
            _ => {
                let a = self.actions_lent.min(acts.len());
                let p = self.positions_lent.min(ps.len());
                self.call(line, &mut acts[..a], &mut ps[..p])
            }
        }
    }

    fn play(&mut self, line: &[u8], acts: &mut [u8], ps: &mut [u8]) {
        if text::is_heading(line) {
            self.put(line);
            self.put(b"\n");
        } else if self.play_asked(line, acts, ps).is_none() {
            self.put(b"bad line\n");
        }
    }
}

// The run stops at the input's end, and at a line that has no newline or is longer than its room. A proved loop ends, and nothing says that an input does:
// there are more turns than any input uses up. A slice of a parameter's array has the length that its type says. For an array that is made where the slice
// is, the prover would count the zeros one by one, and 2.4 million are more than it can (docs/DECISIONS.md).
fn play_on(
    run: &mut Run<impl Print>,
    source: &mut impl Read,
    actions: &mut [u8; ACTIONS_LENGTH + SPARE],
    positions: &mut [u8; POSITIONS_LENGTH + SPARE],
) {
    let mut input = Input::new(source);
    let mut line = [0u8; LONGEST_LINE];
    for _ in 0..u64::MAX {
        let Some(n) = input.read_line(&mut line) else {
            return;
        };
        run.play(&line[..n], actions, positions);
    }
}

fn main(rt: HostRuntime) {
    let mut source = rt.stdin();
    let mut actions = [0u8; ACTIONS_LENGTH + SPARE];
    let mut positions = [0u8; POSITIONS_LENGTH + SPARE];
    let mut run = Run::new(&rt);
    play_on(&mut run, &mut source, &mut actions, &mut positions);
}
