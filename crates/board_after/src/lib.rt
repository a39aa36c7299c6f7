// The board after a move, after board.rs: the record that a listed move leaves, by document 02, order 9.
#![tactic(auto)]

pub mod settled;

ghost use Rattle.std.specs.Prelude.{◌≡◌, ◌&&◌, ◌/◌, ◌%◌, ◌<◌, cond, eqb, leb, take, set};
ghost use Rattle.answer.specs.Numbers.{same};
ghost use Rattle.board_builder.specs.BoardBuilder.{with_counters, numbers};
ghost use Rattle.board_builder.specs.Steps.{stepped};
ghost use Rattle.move_rules.specs.After.{two_apart, castles, corner, rook_moved, takes_in_passing, pawn_removed, set_down};
ghost use Rattle.move_rules.specs.After.{squares_after, rights_without, rights_after, side_after, steps_twice, stood_beside};
ghost use Rattle.move_rules.specs.After.{file_after, after_parts, restarts, one_more, half_after, full_after, record_after, after_answer};
ghost use Rattle.move_rules.specs.Leads.{leads_to, leads_to_board, counters_lead};
ghost use Rattle.board_after.specs.CodeDiffer.{differs, differing, touches_more};

use answer::{ACCEPTED, BAD_LIST, OUT_OF_RANGE};
use board_builder::{
    BLACK_RIGHTS_AT, BoardBuilder, EN_PASSANT_AT, LAST_COUNT, RECORD_SIZE, SIDE_AT, Stepped,
    WHITE_RIGHTS_AT,
};
use chess_move::{ChessMove, LAST_MOVE};
use square::{KING, PAWN};

// From one square of the board to another, or to itself.
#[derive(Clone, Copy)]
pub struct Way {
    pub source: u8,
    pub dest: u8,
    pub ghost on_board: { (source < 64) × (dest < 64) },
}

// What the number of a move says.
#[derive(Clone, Copy)]
struct Step {
    way: Way,
    promotion: u8,
    ghost small: { promotion < 16 },
}

impl Step {
    fn of(m: u16) -> Step
        ensures source { result.way.source ≡ m % 64 }
        ensures dest { result.way.dest ≡ m / 64 % 64 }
        ensures promotion { result.promotion ≡ m / 4096 }
    {
        let parts = ChessMove::from_number(m);
        Step {
            way: Way {
                source: parts.source,
                dest: parts.dest,
            },
            promotion: parts.promotion,
        }
    }
}

// Of two squares, files or ranks.
pub fn two_apart(a: u8, b: u8) -> bool
    ensures { result ≡ two_apart a b }
{
    a.abs_diff(b) == 2
}

// The square in the corner to which a king castles.
pub fn corner(source: u8, dest: u8) -> u8
    ensures { result ≡ corner source dest }
{
    let rank = source / 8 * 8;
    if source < dest { rank + 7 } else { rank }
}

// Of a number for each colour, that of a man's.
fn of_colour(man: u8, white: u8, black: u8) -> u8
    ensures { result ≡ cond (leb man 6) white black }
{
    if man <= 6 { white } else { black }
}

// Castling is a king going two files along its rank. Here and below there is no branch, since which man moves cannot be predicted.
fn castles(man: u8, way: Way) -> bool
    ensures { result ≡ castles man way.source way.dest }
{
    let two = two_apart(way.source, way.dest);
    answer::both(
        square::kind_of(man) == KING,
        answer::both(way.source / 8 == way.dest / 8, two),
    )
}

// What stood in the corner goes to the square passed over.
fn move_rook(squares: &mut [u8; 64], man: u8, way: Way)
    ensures { squares.new ≡ rook_moved squares.old man way.source way.dest }
{
    if !castles(man, way) {
        return;
    }
    let from = corner(way.source, way.dest) as usize;
    let to = ((way.source + way.dest) / 2) as usize;
    squares[to] = squares[from];
    squares[from] = 0;
}

// En passant is a pawn changing files to an empty square.
pub fn takes_in_passing(squares: &[u8; 64], man: u8, way: Way) -> bool
    ensures { result ≡ takes_in_passing squares.now man way.source way.dest }
{
    let empty = squares[way.dest as usize] == 0;
    answer::both(
        square::kind_of(man) == PAWN,
        answer::both(way.source % 8 != way.dest % 8, empty),
    )
}

fn remove_pawn(squares: &mut [u8; 64], man: u8, way: Way)
    ensures { squares.new ≡ pawn_removed squares.old man way.source way.dest }
{
    if !takes_in_passing(squares, man, way) {
        return;
    }
    squares[(way.source / 8 * 8 + way.dest % 8) as usize] = 0;
}

// The man that is set down; nothing if the source is empty.
fn set_down(man: u8, promotion: u8) -> u8
    requires { promotion < 16 }
    ensures { result ≡ set_down man promotion }
{
    if promotion == 0 {
        return man;
    }
    if man == 0 {
        return 0;
    }
    promotion + of_colour(man, 0, 6)
}

// In place. The man that moves is set down last.
fn move_men(squares: &mut [u8; 64], step: Step)
    ensures { squares.new ≡ squares_after squares.old step.way.source step.way.dest step.promotion }
{
    let way = step.way;
    let man = squares[way.source as usize];
    move_rook(squares, man, way);
    remove_pawn(squares, man, way);
    squares[way.source as usize] = 0;
    squares[way.dest as usize] = set_down(man, step.promotion);
}

// Computed by the rule itself, and not by castle_rights::remove, which refuses rights out of range: the log asks about any byte.
fn rights_without(color: u8, rights: u8, square: u8) -> u8
    requires { (color < 2) × (square < 64) }
    ensures { result ≡ rights_without color rights square }
{
    let gone = castle_rights::square_to_castle_rights(color, square).value as u8;
    (rights % 2).saturating_sub(gone % 2) + 2 * (rights / 2).saturating_sub(gone / 2)
}

fn rights_after(color: u8, rights: u8, way: Way) -> u8
    requires { color < 2 }
    ensures { result ≡ rights_after color rights way.source way.dest }
{
    rights_without(color, rights_without(color, rights, way.source), way.dest)
}

// Two ranks on one file are 16 squares: tested first, since it is true of few moves.
fn steps_twice(man: u8, way: Way) -> bool
    ensures { result ≡ steps_twice man way.source way.dest }
{
    if way.source.abs_diff(way.dest) != 16 {
        return false;
    }
    square::kind_of(man) == PAWN
}

fn stood_beside(squares: &[u8; 64], square: u8, man: u8) -> bool
    requires { square < 64 }
    ensures { result ≡ stood_beside squares.now square man }
{
    let before = square % 8 != 0 && squares[(square - 1) as usize] == man;
    let behind = square % 8 != 7 && squares[(square + 1) as usize] == man;
    answer::either(before, behind)
}

fn side_after(side: u8) -> u8
    ensures { result ≡ side_after side }
{
    u8::from(side == 0)
}

// The en passant file as a record, which C reads, has it: 0 unless a double step arrives beside an enemy pawn.
fn file_after(squares: &[u8; 64], man: u8, way: Way) -> u8
    ensures { result ≡ file_after squares.now man way.source way.dest }
{
    if !steps_twice(man, way) {
        return 0;
    }
    if !stood_beside(squares, way.dest, of_colour(man, PAWN + 6, PAWN)) {
        return 0;
    }
    way.dest % 8 + 1
}

// The record after a move, with these counters: handed in, since a record that is changed once more is copied once more.
fn after(b: BoardBuilder, half: u16, full: u16, step: Step) -> BoardBuilder
    ensures { result ≡ with_counters (after_parts b step.way.source step.way.dest step.promotion) half full }
{
    let way = step.way;
    let mut pieces = b.pieces;
    let man = pieces[way.source as usize];
    let file = file_after(&pieces, man, way);
    move_men(&mut pieces, step);
    BoardBuilder {
        pieces,
        side_to_move: side_after(b.side_to_move),
        white_castle_rights: rights_after(0, b.white_castle_rights, way),
        black_castle_rights: rights_after(1, b.black_castle_rights, way),
        en_passant: file,
        half_moves: half,
        full_moves: full,
    }
}

fn one_more(n: u16) -> u16
    ensures { result ≡ one_more n }
{
    n.saturating_add(1).min(LAST_COUNT as u16)
}

// Whether half-moves are counted anew: a pawn moves, or a man is taken.
fn restarts(squares: &[u8; 64], way: Way) -> bool
    ensures { result ≡ restarts squares.now way.source way.dest }
{
    if square::kind_of(squares[way.source as usize]) == PAWN {
        return true;
    }
    squares[way.dest as usize] != 0
}

fn half_after(squares: &[u8; 64], half: u16, way: Way) -> u16
    ensures { result ≡ half_after squares.now half way.source way.dest }
{
    if restarts(squares, way) {
        return 0;
    }
    one_more(half)
}

fn full_after(side: u8, full: u16) -> u16
    ensures { result ≡ full_after side full }
{
    if side == 0 {
        return full;
    }
    one_more(full)
}

// The record after a move, its counters too.
fn counted_after(b: BoardBuilder, step: Step) -> BoardBuilder
    ensures { result ≡ with_counters (after_parts b step.way.source step.way.dest step.promotion)
        (half_after b.pieces b.half_moves step.way.source step.way.dest) (full_after b.side_to_move b.full_moves) }
{
    let pieces = b.pieces;
    let half = half_after(&pieces, b.half_moves, step.way);
    let full = full_after(b.side_to_move, b.full_moves);
    after(b, half, full, step)
}

fn stepped(number: u64, board: BoardBuilder) -> Stepped
    ensures { result ≡ stepped number board }
{
    Stepped { number, board }
}

// The record after a move. Checks 5 for the record, then 6 for the move, and then hands the record back.
pub fn board_after(b: BoardBuilder, m: u64) -> Stepped
    ensures { result ≡ after_answer b m }
{
    if !b.in_range() {
        return stepped(OUT_OF_RANGE, b);
    }
    if LAST_MOVE < m {
        return stepped(BAD_LIST, b);
    }
    stepped(ACCEPTED, counted_after(b, Step::of(m as u16)))
}

fn differs(x: u8, y: u8) -> u8
    ensures { result ≡ differs x y }
{
    u8::from(x != y)
}

// In how many squares two boards differ: counted without a branch, so that many squares are compared at a time.
fn differing(a: &[u8; 64], b: &[u8; 64]) -> u8
    ensures { result ≡ differing a.now b.now }
{
    let mut count: u8 = 0;
    for (i, x) in a.iter().enumerate() {
        count += differs(*x, b[i]);
    }
    count
}

fn touches_more(squares: &[u8; 64], man: u8, way: Way) -> bool
    ensures { result ≡ touches_more squares.now man way.source way.dest }
{
    let passing = takes_in_passing(squares, man, way);
    answer::either(
        castles(man, way),
        answer::either(passing, way.source == way.dest),
    )
}

// Whether two squares are all that was set: nothing is copied. The two hold what was set, and no other place differs.
fn two_set(old: &[u8; 64], way: Way, man: u8, new: &[u8; 64]) -> bool
    requires { way.source ≡ way.dest → ⊥ }
    ensures { result ≡ same new.now (set (set old.now way.source 0) way.dest man) }
{
    let from = way.source as usize;
    let to = way.dest as usize;
    if new[from] != 0 {
        return false;
    }
    if new[to] != man {
        return false;
    }
    differing(old, new) == differs(old[from], 0) + differs(old[to], man)
}

// The same for any move, by a copy.
fn all_set(old: &[u8; 64], step: Step, new: &[u8; 64]) -> bool
    ensures { result ≡ same new.now (squares_after old.now step.way.source step.way.dest step.promotion) }
{
    let mut squares = *old;
    move_men(&mut squares, step);
    answer::same_bytes(new, &squares)
}

fn squares_follow(old: &[u8; 64], step: Step, new: &[u8; 64]) -> bool
    ensures { result ≡ same new.now (squares_after old.now step.way.source step.way.dest step.promotion) }
{
    let man = old[step.way.source as usize];
    if touches_more(old, man, step.way) {
        return all_set(old, step, new);
    }
    two_set(old, step.way, set_down(man, step.promotion), new)
}

// Whether both sides' rights follow. Where there were none, none may be left, as in most positions of a game: tested first, for both at once.
fn rights_follow(white: u8, black: u8, way: Way, left: u8, right: u8) -> bool
    ensures { result ≡ (eqb left (rights_after 0 white way.source way.dest) && eqb right (rights_after 1 black way.source way.dest)) }
{
    if answer::both(white == 0, black == 0) {
        return answer::both(left == 0, right == 0);
    }
    if left != rights_after(0, white, way) {
        return false;
    }
    right == rights_after(1, black, way)
}

// The squares of a record, which stand first in it.
fn squares_of(numbers: &[u8; RECORD_SIZE]) -> &[u8; 64]
    ensures { result.now ≡ take 64 numbers.now }
{
    numbers.first_chunk::<64>().unwrap()
}

// Whether record `q` is the one after move `m` from record `p`.
fn follows(p: &[u8; RECORD_SIZE], m: u16, q: &[u8; RECORD_SIZE]) -> bool
    ensures { result ≡ same q.now (record_after p.now m) }
{
    let step = Step::of(m);
    let old = squares_of(p);
    if q[SIDE_AT] != side_after(p[SIDE_AT]) {
        return false;
    }
    if !rights_follow(
        p[WHITE_RIGHTS_AT],
        p[BLACK_RIGHTS_AT],
        step.way,
        q[WHITE_RIGHTS_AT],
        q[BLACK_RIGHTS_AT],
    ) {
        return false;
    }
    if q[EN_PASSANT_AT] != file_after(old, old[step.way.source as usize], step.way) {
        return false;
    }
    squares_follow(old, step, squares_of(q))
}

// Whether the record at the front of `q` is the one after move `m` from the record at the front of `p`. The log's pass asks this about each move; as it
// has one caller, the compiler can inline it into that pass.
pub fn leads_to(p: &[u8], m: u16, q: &[u8]) -> bool
    ensures { result ≡ leads_to p.now m q.now }
{
    let Some(old) = p.first_chunk::<RECORD_SIZE>() else {
        return false;
    };
    let Some(new) = q.first_chunk::<RECORD_SIZE>() else {
        return false;
    };
    follows(old, m, new)
}

// The counters of the two may differ, so that a derived `==` would not do.
fn same_record(a: &BoardBuilder, b: &BoardBuilder) -> bool
    ensures { result ≡ same (numbers a.now) (numbers b.now) }
{
    if a.side_to_move != b.side_to_move {
        return false;
    }
    if a.white_castle_rights != b.white_castle_rights {
        return false;
    }
    if a.black_castle_rights != b.black_castle_rights {
        return false;
    }
    if a.en_passant != b.en_passant {
        return false;
    }
    answer::same_bytes(&a.pieces, &b.pieces)
}

// The same for a board that a call is given: here the record after the move is computed.
pub fn leads_to_board(p: &[u8], m: u16, next: BoardBuilder) -> bool
    ensures { result ≡ leads_to_board p.now m next }
{
    let Some(numbers) = p.first_chunk::<RECORD_SIZE>() else {
        return false;
    };
    let computed = after(BoardBuilder::from_numbers(numbers), 0, 1, Step::of(m));
    same_record(&next, &computed)
}

// Whether two counters are those after move `m` from the record at the front of `p`, with its counters beside it.
pub fn counters_lead(p: &[u8], m: u16, half: u16, full: u16, clock: u16, number: u16) -> bool
    ensures { result ≡ counters_lead p.now m half full clock number }
{
    let Some(numbers) = p.first_chunk::<RECORD_SIZE>() else {
        return false;
    };
    if clock != half_after(squares_of(numbers), half, Step::of(m).way) {
        return false;
    }
    number == full_after(numbers[SIDE_AT], full)
}
