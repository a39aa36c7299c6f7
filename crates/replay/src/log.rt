// The lines of a script that play the game log: its calls and queries, and what is set up for them.
use crate::part;
use crate::run::{Poke, Run, counted, poked};
use crate::text::Line;
use action::ACTION_SIZE;
use game_rules::{MAX_ACTIONS, MAX_MOVES};
use position::POSITION_SIZE;

impl<'a, R: Print> Run<'a, R> {
    fn start(&mut self, line: Line, acts: &[u8], ps: &mut [u8]) -> Option<()> {
        let poke = self.poke.take();
        let g = self.read_position(line, 1)?;
        let board = poked(g.board, poke);
        let c = game::start(acts, ps, board, g.in_check, &self.list[..g.listed]);
        self.called(c);
        Some(())
    }

    fn make_move(&mut self, line: Line, acts: &mut [u8], ps: &mut [u8]) -> Option<()> {
        let poke = self.poke.take();
        let x = line.number(1);
        let g = self.read_position(line, 2)?;
        let x = x?;
        let (n, m) = (self.actions, self.moves);
        let board = poked(counted(g, ps, m, x), poke);
        let list = &self.list[..g.listed];
        let c = game::make_move(acts, ps, n, m, x, board, g.in_check, list);
        self.called(c);
        Some(())
    }

    fn put_queries(&self, acts: &[u8], ps: &[u8]) {
        let (n, m) = (self.actions, self.moves);
        self.put_answer(game::result(acts, ps, n, m));
        self.put(b" ");
        self.put_answer(game::can_declare_draw(acts, ps, n, m));
        self.put(b"\n");
    }

    fn put_laws(&self, acts: &[u8], ps: &[u8]) {
        let (n, m) = (self.actions, self.moves);
        self.put_answer(laws::can_claim(acts, ps, n, m));
        let r = laws::ruling(acts, ps, n, m);
        let _ = print!(self.rt; " {} {} {} {}", r.number, r.count, r.laws_count, r.equals);
        let _ = print!(self.rt; " {} {} {} {}\n", r.first, r.second, r.claim, r.laws_claim);
    }

    fn put_checksums(&self, acts: &[u8], ps: &[u8]) {
        let _ = print!(self.rt; "{} {}\n", part::checksum(acts), part::checksum(ps));
    }

    fn set_counts(&mut self, line: Line) -> Option<()> {
        let actions = line.number(1)?;
        let moves = line.number(2)?;
        self.actions = actions;
        self.moves = moves;
        Some(())
    }

    fn lend(&mut self, line: Line) -> Option<()> {
        let actions = line.number(1)?;
        let positions = line.number(2)?;
        self.actions_lent = actions as usize;
        self.positions_lent = positions as usize;
        Some(())
    }

    fn set_poke(&mut self, line: Line) -> Option<()> {
        let at = line.byte(1)? as usize;
        let value = line.short(2)?;
        self.poke = Some(Poke { at, value });
        Some(())
    }

    fn fill(&self, line: Line, acts: &mut [u8], ps: &mut [u8]) -> Option<()> {
        let value = line.byte(1)?;
        let actions = self.actions.min(MAX_ACTIONS as u64) as usize;
        let moves = self.moves.min(MAX_MOVES as u64) as usize;
        part::fill(acts, ACTION_SIZE * actions, value);
        part::fill(ps, POSITION_SIZE * (moves + 1), value);
        Some(())
    }

    // What only the program itself looks at, on the whole parts. None: the line is not understood.
    pub(crate) fn set_up(&mut self, line: Line, acts: &mut [u8], ps: &mut [u8]) -> Option<()> {
        match line.letter {
            b't' => self.put_checksums(acts, ps),
            b'c' => self.set_counts(line)?,
            b'b' => set_byte(line, acts, ps)?,
            b'l' => self.lend(line)?,
            b'f' => self.fill(line, acts, ps)?,
            _ => self.set_poke(line)?,
        }
        Some(())
    }

    // Calls and queries, on the bytes that are lent. None: the line is not understood.
    pub(crate) fn call(&mut self, line: Line, acts: &mut [u8], ps: &mut [u8]) -> Option<()> {
        let (n, m) = (self.actions, self.moves);
        let colour = line.byte(1);
        match line.letter {
            b's' => self.start(line, acts, ps)?,
            b'm' => self.make_move(line, acts, ps)?,
            b'o' => self.called(game::offer_draw(acts, ps, n, m, colour?)),
            b'r' => self.called(game::resign(acts, ps, n, m, colour?)),
            b'a' => self.called(game::accept_draw(acts, ps, n, m)),
            b'd' => self.called(game::declare_draw(acts, ps, n, m)),
            b'L' => self.put_laws(acts, ps),
            _ => self.put_queries(acts, ps),
        }
        Some(())
    }
}

// Sets a byte of the part that a word names, if there is such a part and byte.
fn set_byte(line: Line, acts: &mut [u8], ps: &mut [u8]) -> Option<()> {
    let offset = line.number(2)?;
    let value = line.byte(3)?;
    match line.word(1) {
        b"a" => part::set(acts, offset, value),
        b"p" => part::set(ps, offset, value),
        _ => None,
    }
}
