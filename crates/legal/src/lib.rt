// The legal moves of a record, plainly: every man of the side to move to every square, by the rules of `move_laws`.
#![tactic(auto)]

ghost use Rattle.std.specs.Prelude.{◌≡◌, true, cond, not, ◌&&◌, ◌||◌, ◌+◌, ◌/◌, ◌%◌, ◌≤◌, ◌<◌, eqb, length, IfSome, unwrap_or};
ghost use Rattle.answer.specs.Answer.{write_answer, write_bytes};
ghost use Rattle.board_builder.specs.BoardBuilder.{in_range};
ghost use Rattle.move_rules.specs.After.{squares_after};
ghost use Rattle.move_laws.specs.Apart.{files_apart, ranks_apart, distance, file_or_rank, diagonal, knights_move, adjoining};
ghost use Rattle.move_laws.specs.Apart.{empty_up_to, clear};
ghost use Rattle.move_laws.specs.Attack.{other, man_of, of_side, ahead, pawn_attacks, kind_attacks, attacks};
ghost use Rattle.move_laws.specs.Attack.{attacked, king_attacked, in_check};
ghost use Rattle.move_laws.specs.Move.{may_take, may_arrive, pawn_steps, pawn_steps_twice, pawn_captures, pawn_passes, pawn_moves};
ghost use Rattle.move_laws.specs.Move.{right_held, way_attacked, king_castles, promotes, piece_moves, kind_moves};
ghost use Rattle.move_laws.specs.Legal.{goes, is_legal, legal_from, legal_moves, list_check, check_byte, check_answer};
ghost use Rattle.legal.specs.CodeList.{may_promote, SkipsFrom, on_line, last_of, Calm, keeps_safe, counted_to, put_at, count_from, filled_from};

use answer::{Answer, BAD_LIST, OUT_OF_RANGE};
use board_after::Way;
use board_builder::BoardBuilder;
use square::{KING, PAWN};

// The kinds of men that `square` has no constant for. They are numbers, as in the squares of a record, which come from C.

const KNIGHT: u8 = 2;

const BISHOP: u8 = 3;

const ROOK: u8 = 4;

const QUEEN: u8 = 5;

// White is 0, black is 1.
#[derive(Clone, Copy)]
struct Side {
    number: u8,
    ghost known: { number < 2 },
}

impl Side {
    fn other(self) -> Side
        ensures { result.number ≡ other self.number }
    {
        Side {
            number: 1 - self.number,
        }
    }

    // 1 to 6 are white's men, 7 to 12 are black's.
    fn man(self, kind: u8) -> u8
        requires { kind < 16 }
        ensures { result ≡ man_of self.number kind }
    {
        kind + 6 * self.number
    }

    // Of a number for each side, this side's.
    fn pick(self, white: u8, black: u8) -> u8
        ensures { result ≡ cond (eqb self.number 0) white black }
    {
        if self.number == 0 { white } else { black }
    }
}

// A record in range.
#[derive(Clone, Copy)]
struct Position {
    board: BoardBuilder,
    ghost good: { in_range board ≡ true },
}

impl Position {
    fn side(&self) -> Side
        ensures { result.number ≡ self.now.board.side_to_move }
    {
        Side {
            number: self.board.side_to_move,
        }
    }
}

fn files_apart(way: Way) -> u8
    ensures { result ≡ files_apart way.source way.dest }
{
    (way.source % 8).abs_diff(way.dest % 8)
}

fn ranks_apart(way: Way) -> u8
    ensures { result ≡ ranks_apart way.source way.dest }
{
    (way.source / 8).abs_diff(way.dest / 8)
}

fn distance(way: Way) -> u8
    ensures { result ≡ distance way.source way.dest }
{
    files_apart(way).max(ranks_apart(way))
}

fn straight(way: Way) -> bool
    ensures { result ≡ file_or_rank way.source way.dest }
{
    if way.source == way.dest {
        return false;
    }
    let files = files_apart(way);
    let ranks = ranks_apart(way);
    answer::either(files == 0, ranks == 0)
}

fn diagonal(way: Way) -> bool
    ensures { result ≡ diagonal way.source way.dest }
{
    if way.source == way.dest {
        return false;
    }
    let files = files_apart(way);
    let ranks = ranks_apart(way);
    files == ranks
}

fn knights_move(way: Way) -> bool
    ensures { result ≡ knights_move way.source way.dest }
{
    let files = files_apart(way);
    let ranks = ranks_apart(way);
    answer::either(
        answer::both(files == 1, ranks == 2),
        answer::both(files == 2, ranks == 1),
    )
}

fn adjoining(way: Way) -> bool
    ensures { result ≡ adjoining way.source way.dest }
{
    distance(way) == 1
}

fn empty_up_to(squares: &[u8; 64], stop: u8, step: u8, from: u8) -> bool
    requires { (stop < 64) × (step < 64) × (from < 128) }
    ensures { result ≡ empty_up_to squares.now stop step 6 from }
{
    let mut at = from;
    for _ in 0..6u8 {
        if stop <= at {
            return true;
        }
        if squares[at as usize] != 0 {
            return false;
        }
        at += step;
    }
    true
}

fn clear(squares: &[u8; 64], way: Way) -> bool
    requires { way.source ≡ way.dest → ⊥ }
    ensures { result ≡ clear squares.now way.source way.dest }
{
    let step = way.source.abs_diff(way.dest) / distance(way);
    let low = way.source.min(way.dest);
    empty_up_to(squares, way.source.max(way.dest), step, low + step)
}

fn of_side(side: Side, man: u8) -> bool
    ensures { result ≡ of_side side.number man }
{
    if man < side.man(PAWN) {
        return false;
    }
    man <= side.man(KING)
}

fn ahead(side: Side, way: Way, n: u8) -> bool
    requires { n < 8 }
    ensures { result ≡ ahead side.number way.source way.dest n }
{
    if side.number == 0 {
        return way.dest / 8 == way.source / 8 + n;
    }
    way.source / 8 == way.dest / 8 + n
}

fn pawn_attacks(side: Side, way: Way) -> bool
    ensures { result ≡ pawn_attacks side.number way.source way.dest }
{
    if !ahead(side, way, 1) {
        return false;
    }
    files_apart(way) == 1
}

// Of a man that goes along lines.
fn slides(squares: &[u8; 64], along: bool, way: Way) -> bool
    requires { along ≡ true → way.source ≡ way.dest → ⊥ }
    ensures { result ≡ (along && clear squares.now way.source way.dest) }
{
    if !along {
        return false;
    }
    clear(squares, way)
}

fn kind_attacks(squares: &[u8; 64], side: Side, kind: u8, way: Way) -> bool
    ensures { result ≡ kind_attacks squares.now side.number kind way.source way.dest }
{
    match kind {
        PAWN => pawn_attacks(side, way),
        KNIGHT => knights_move(way),
        BISHOP => slides(squares, diagonal(way), way),
        ROOK => slides(squares, straight(way), way),
        QUEEN => slides(squares, on_line(way), way),
        KING => adjoining(way),
        _ => false,
    }
}

fn attacks(squares: &[u8; 64], side: Side, way: Way) -> bool
    ensures { result ≡ attacks squares.now side.number way.source way.dest }
{
    let man = squares[way.source as usize];
    if !of_side(side, man) {
        return false;
    }
    kind_attacks(squares, side, square::kind_of(man), way)
}

fn attacked(squares: &[u8; 64], side: Side, t: u8) -> bool
    requires { t < 64 }
    ensures { result ≡ attacked squares.now side.number t }
{
    for s in (0..64).rev() {
        if attacks(squares, side, Way { source: s, dest: t }) {
            return true;
        }
    }
    false
}

fn king_attacked(squares: &[u8; 64], side: Side, s: u8) -> bool
    requires { s < 64 }
    ensures { result ≡ king_attacked squares.now side.number s }
{
    if squares[s as usize] != side.man(KING) {
        return false;
    }
    attacked(squares, side.other(), s)
}

fn checked(squares: &[u8; 64], side: Side) -> bool
    ensures { result ≡ in_check squares.now side.number }
{
    for s in (0..64).rev() {
        if king_attacked(squares, side, s) {
            return true;
        }
    }
    false
}

fn may_take(side: Side, man: u8) -> bool
    ensures { result ≡ may_take side.number man }
{
    if !of_side(side.other(), man) {
        return false;
    }
    square::kind_of(man) != KING
}

fn may_arrive(side: Side, man: u8) -> bool
    ensures { result ≡ may_arrive side.number man }
{
    if man == 0 {
        return true;
    }
    may_take(side, man)
}

fn pawn_steps(squares: &[u8; 64], side: Side, way: Way) -> bool
    ensures { result ≡ pawn_steps squares.now side.number way.source way.dest }
{
    if !ahead(side, way, 1) {
        return false;
    }
    if way.source % 8 != way.dest % 8 {
        return false;
    }
    squares[way.dest as usize] == 0
}

fn pawn_steps_twice(squares: &[u8; 64], side: Side, way: Way) -> bool
    ensures { result ≡ pawn_steps_twice squares.now side.number way.source way.dest }
{
    if !ahead(side, way, 2) {
        return false;
    }
    if way.source % 8 != way.dest % 8 {
        return false;
    }
    if way.source / 8 != side.pick(1, 6) {
        return false;
    }
    if squares[way.dest as usize] != 0 {
        return false;
    }
    squares[((way.source + way.dest) / 2) as usize] == 0
}

fn pawn_takes(squares: &[u8; 64], side: Side, way: Way) -> bool
    ensures { result ≡ pawn_captures squares.now side.number way.source way.dest }
{
    if !pawn_attacks(side, way) {
        return false;
    }
    may_take(side, squares[way.dest as usize])
}

fn pawn_passes(squares: &[u8; 64], side: Side, marked: u8, way: Way) -> bool
    ensures { result ≡ pawn_passes squares.now side.number marked way.source way.dest }
{
    if !pawn_attacks(side, way) {
        return false;
    }
    if marked != way.dest % 8 + 1 {
        return false;
    }
    if way.source / 8 != side.pick(4, 3) {
        return false;
    }
    if squares[way.dest as usize] != 0 {
        return false;
    }
    squares[(way.source / 8 * 8 + way.dest % 8) as usize] == side.other().man(PAWN)
}

fn pawn_moves(squares: &[u8; 64], side: Side, marked: u8, way: Way) -> bool
    ensures { result ≡ pawn_moves squares.now side.number marked way.source way.dest }
{
    if pawn_steps(squares, side, way) {
        return true;
    }
    if pawn_steps_twice(squares, side, way) {
        return true;
    }
    if pawn_takes(squares, side, way) {
        return true;
    }
    pawn_passes(squares, side, marked, way)
}

fn right_held(rights: u8, way: Way) -> bool
    ensures { result ≡ right_held rights way.source way.dest }
{
    if way.source < way.dest {
        return rights % 2 == 1;
    }
    rights / 2 == 1
}

fn way_attacked(squares: &[u8; 64], side: Side, way: Way) -> bool
    ensures { result ≡ way_attacked squares.now side.number way.source way.dest }
{
    let other = side.other();
    if attacked(squares, other, way.source) {
        return true;
    }
    if attacked(squares, other, (way.source + way.dest) / 2) {
        return true;
    }
    attacked(squares, other, way.dest)
}

fn king_castles(squares: &[u8; 64], side: Side, rights: u8, way: Way) -> bool
    ensures { result ≡ king_castles squares.now side.number rights way.source way.dest }
{
    if way.source != 4 + 56 * side.number {
        return false;
    }
    if !board_after::two_apart(way.source, way.dest) {
        return false;
    }
    if !right_held(rights, way) {
        return false;
    }
    let from = board_after::corner(way.source, way.dest);
    if squares[from as usize] != side.man(ROOK) {
        return false;
    }
    let between = Way {
        source: way.source,
        dest: from,
    };
    if !clear(squares, between) {
        return false;
    }
    !way_attacked(squares, side, way)
}

fn promotes(side: Side, kind: u8, t: u8, promotion: u8) -> bool
    ensures { result ≡ promotes side.number kind t promotion }
{
    let last = side.pick(7, 0);
    if answer::both(kind == PAWN, t / 8 == last) {
        return answer::both(KNIGHT <= promotion, promotion <= QUEEN);
    }
    promotion == 0
}

fn piece_moves(squares: &[u8; 64], side: Side, kind: u8, way: Way) -> bool
    ensures { result ≡ piece_moves squares.now side.number kind way.source way.dest }
{
    if !may_arrive(side, squares[way.dest as usize]) {
        return false;
    }
    kind_attacks(squares, side, kind, way)
}

fn king_moves(squares: &[u8; 64], side: Side, rights: u8, kind: u8, way: Way) -> bool
    ensures { result ≡ (piece_moves squares.now side.number kind way.source way.dest || king_castles squares.now side.number rights way.source way.dest) }
{
    if piece_moves(squares, side, kind, way) {
        return true;
    }
    king_castles(squares, side, rights, way)
}

fn kind_moves(squares: &[u8; 64], side: Side, rights: u8, marked: u8, kind: u8, way: Way) -> bool
    ensures { result ≡ kind_moves squares.now side.number rights marked kind way.source way.dest }
{
    match kind {
        PAWN => pawn_moves(squares, side, marked, way),
        KING => king_moves(squares, side, rights, kind, way),
        _ => piece_moves(squares, side, kind, way),
    }
}

fn goes(squares: &[u8; 64], side: Side, rights: u8, marked: u8, way: Way, promotion: u8) -> bool
    ensures { result ≡ goes squares.now side.number rights marked way.source way.dest promotion }
{
    let man = squares[way.source as usize];
    if !of_side(side, man) {
        return false;
    }
    let kind = square::kind_of(man);
    if !promotes(side, kind, way.dest, promotion) {
        return false;
    }
    kind_moves(squares, side, rights, marked, kind, way)
}

// Whether the king of the side to move is safe after a move.
fn safe_after(p: &Position, m: u64) -> bool
    requires { m < 28672 }
    ensures { result ≡ not (in_check (squares_after p.now.board.pieces (m % 64) (m / 64 % 64) (m / 4096)) p.now.board.side_to_move) }
{
    let next = board_after::board_after(p.board, m);
    let squares = next.board.pieces;
    !checked(&squares, p.side())
}

fn on_line(way: Way) -> bool
    ensures { result ≡ on_line way.source way.dest }
{
    if straight(way) {
        return true;
    }
    diagonal(way)
}

fn keeps_safe(squares: &[u8; 64], king: Option<u8>, way: Way) -> bool
    requires { IfSome king (λ k. k < 64) }
    ensures { result ≡ keeps_safe squares.now (unwrap_or king 64) way.source way.dest }
{
    let Some(king) = king else {
        return false;
    };
    let source = way.source;
    if source == king {
        return false;
    }
    if on_line(Way { source, dest: king }) {
        return false;
    }
    !board_after::takes_in_passing(squares, squares[source as usize], way)
}

fn last_of(squares: &[u8; 64], man: u8, from: u8) -> Option<u8>
    requires { from < 65 }
    ensures last { unwrap_or result 64 ≡ last_of squares.now man from }
    ensures below { IfSome result (λ k. k < 64) }
{
    for n in (0..from).rev() {
        if squares[n as usize] == man {
            return Some(n);
        }
    }
    None
}

// The square of a side's king; none if it is in check or there are more kings than one, or none.
fn calm_king(squares: &[u8; 64], side: Side) -> Option<u8>
    ensures { IfSome result (λ k. (k < 64) × Calm squares.now side.number k) }
{
    if checked(squares, side) {
        return None;
    }
    let man = side.man(KING);
    let king = last_of(squares, man, 64)?;
    if last_of(squares, man, king).is_some() {
        return None;
    }
    Some(king)
}

// The king is asked only where it can matter: most moves are played on no line with it.
fn is_legal(p: &Position, king: Option<u8>, m: u64) -> bool
    requires { (m < 28672) × IfSome king (λ k. (k < 64) × Calm p.now.board.pieces p.now.board.side_to_move k) }
    ensures { result ≡ is_legal p.now.board m }
{
    let side = p.side();
    let board = &p.board;
    let rights = side.pick(board.white_castle_rights, board.black_castle_rights);
    let way = Way {
        source: (m % 64) as u8,
        dest: (m / 64 % 64) as u8,
    };
    if !goes(
        &board.pieces,
        side,
        rights,
        board.en_passant,
        way,
        (m / 4096) as u8,
    ) {
        return false;
    }
    if keeps_safe(&board.pieces, king, way) {
        return true;
    }
    safe_after(p, m)
}

// Whether a pawn of a side stands where its next step promotes it.
fn may_promote(squares: &[u8; 64], side: Side) -> bool
    ensures { result ≡ may_promote squares.now side.number }
{
    let first = side.pick(48, 8) as usize;
    squares[first..first + 8].contains(&side.man(PAWN))
}

// How many numbers are to be asked: those without a promotion come first, and mostly no other can be legal.
fn numbers_asked(p: &Position) -> u64
    ensures most { result ≤ 28672 }
    ensures all { legal_from p.now.board result 0 ≡ legal_moves p.now.board }
{
    if may_promote(&p.board.pieces, p.side()) {
        return 28672;
    }
    4096
}

fn next_step(own: bool, step: u8) -> u8
    requires { step < 65 }
    ensures { result ≡ cond own 1 (step + 1) }
{
    if own {
        return 1;
    }
    step + 1
}

// From each square the step to the next with a man of a side: the numbers between, which begin at no such man, are no legal moves.
fn mark_steps(squares: &[u8; 64], side: Side, steps: &mut [u8; 64])
    ensures { SkipsFrom squares.now side.number 0 steps.new }
{
    let mut step: u8 = 1;
    for s in (0..64usize).rev() {
        steps[s] = step;
        let own = of_side(side, squares[s]);
        step = next_step(own, step);
    }
}

// The count after a number is asked. It stops at 256, past the room, and is a number until all are asked: an Option would test it at each.
fn keep(legal: bool, m: u16, room: &mut [u16; 255], count: usize) -> usize
    requires { count < 257 }
    ensures count { result ≡ cond legal (counted_to count) count }
    ensures room { room.new ≡ cond legal (put_at room.old count m) room.old }
{
    if !legal {
        return count;
    }
    if 255 <= count {
        return 256;
    }
    room[count] = m;
    count + 1
}

// Every legal move, as long as there is room, and how many there are; none for more than there is room for.
fn gather(p: &Position, room: &mut [u16; 255]) -> Option<usize>
    ensures count { unwrap_or result 256 ≡ count_from 0 (legal_moves p.now.board) }
    ensures few { IfSome result (λ n. n ≤ 255) }
    ensures room { room.new ≡ filled_from room.old 0 (legal_moves p.now.board) }
{
    let asked = numbers_asked(p);
    let side = p.side();
    let mut steps = [1u8; 64];
    mark_steps(&p.board.pieces, side, &mut steps);
    let king = calm_king(&p.board.pieces, side);
    let mut count: usize = 0;
    let mut m: u64 = 0;
    // No `for` says this more plainly: the table says how far it is to the next number.
    while m < asked {
        let legal = is_legal(p, king, m);
        count = keep(legal, m as u16, room, count);
        m += steps[(m % 64) as usize] as u64;
    }
    if 255 < count {
        return None;
    }
    Some(count)
}

// The legal moves in rising order. Checks 5, then 6, then 7.
pub fn legal_list(b: BoardBuilder, out: &mut [u16]) -> Answer
    ensures answer { result ≡ write_answer (list_check b) (legal_moves b) (length out.old) }
    ensures bytes { out.new ≡ write_bytes (list_check b) (legal_moves b) out.old }
{
    if !b.in_range() {
        return answer::refused(OUT_OF_RANGE);
    }
    let mut room = [0u16; 255];
    let Some(count) = gather(&Position { board: b }, &mut room) else {
        return answer::refused(BAD_LIST);
    };
    answer::write_items(&room[..count], out)
}

fn check_byte(p: &Position) -> u8
    ensures { result ≡ check_byte p.now.board }
{
    u8::from(checked(&p.board.pieces, p.side()))
}

pub fn in_check(b: BoardBuilder) -> Answer
    ensures { result ≡ check_answer b }
{
    if !b.in_range() {
        return answer::refused(OUT_OF_RANGE);
    }
    answer::accepted_byte(check_byte(&Position { board: b }))
}
