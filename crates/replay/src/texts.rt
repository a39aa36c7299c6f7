// The lines of a script that read and write texts, and the position that they are asked about.
use crate::run::{Run, poked, read_board};
use crate::text::Line;
use board_after::board_after;
use board_builder::BoardBuilder;
use fen_text::Fen;

// The longest texts that the writers write.

const LONGEST_FEN: usize = 85;

const LONGEST_FULL_FEN: usize = 91;

const LONGEST_COORDINATES: usize = 5;

const LONGEST_NAME: usize = 11;

impl<'a, R: Print> Run<'a, R> {
    fn give(&mut self, line: Line) -> Option<()> {
        let poke = self.poke.take();
        let g = self.read_position(line, 1)?;
        self.board = poked(g.board, poke);
        self.listed = g.listed;
        Some(())
    }

    // What a reader refused, and where, with the line's end.
    fn put_refused(&self, fen: Fen) {
        let _ = print!(self.rt; "{} {}\n", fen.number, fen.offset);
    }

    // The board's full FEN behind a number, with the line's end.
    fn put_board(&self, number: u64, board: BoardBuilder) {
        let _ = self.rt.print(number);
        let mut out = [0u8; LONGEST_FULL_FEN];
        let a = fen_writer::write_full(board, &mut out);
        self.put_written(a, &out);
    }

    fn put_full_fen(&self, line: Line) {
        let fen = fen_reader::full::read_full(line.rest(1));
        if fen.number != answer::ACCEPTED {
            return self.put_refused(fen);
        }
        self.put_board(fen.number, fen.board);
    }

    fn put_after(&mut self, line: Line) -> Option<()> {
        let m = line.number(1)?;
        let board = read_board(line.rest(2))?;
        let after = board_after(poked(board, self.poke.take()), m);
        self.put_board(after.number, after.board);
        Some(())
    }

    fn put_fen(&self, line: Line) {
        let fen = fen_reader::read_fen(line.rest(1));
        if fen.number != answer::ACCEPTED {
            return self.put_refused(fen);
        }
        let _ = self.rt.print(fen.number);
        let mut out = [0u8; LONGEST_FEN];
        let a = fen_writer::write_fen(fen.board, &mut out);
        self.put_written(a, &out);
    }

    fn put_coordinates(&self, line: Line) {
        let read = chess_move::from_str(line.rest(1));
        if read.number != answer::ACCEPTED {
            let _ = print!(self.rt; "{} {}\n", read.number, read.offset);
            return;
        }
        let _ = print!(self.rt; "{} {}", read.number, read.value);
        let mut out = [0u8; LONGEST_COORDINATES];
        let a = chess_move::to_string(read.value, &mut out);
        self.put_written(a, &out);
    }

    fn put_san(&self, line: Line) {
        let list = &self.list[..self.listed];
        self.put_answer(san::from_san(self.board, list, line.rest(1)));
        self.put(b"\n");
    }

    fn put_name(&self, line: Line) -> Option<()> {
        let x = line.number(1)?;
        let mut out = [0u8; LONGEST_NAME];
        let list = &self.list[..self.listed];
        let a = namer::to_san(self.board, list, x, &mut out);
        self.put_answer(a);
        self.put_written(a, &out);
        Some(())
    }

    // Texts, and the position that they are asked about. None: the line is not understood.
    pub(crate) fn ask(&mut self, line: Line) -> Option<()> {
        match line.letter {
            b'p' => self.give(line)?,
            b'F' => self.put_fen(line),
            b'G' => self.put_full_fen(line),
            b'A' => self.put_after(line)?,
            b'C' => self.put_coordinates(line),
            b'S' => self.put_san(line),
            _ => self.put_name(line)?,
        }
        Some(())
    }
}
