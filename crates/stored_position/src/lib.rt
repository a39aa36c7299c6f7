// The bytes of a position in the log: written, and checked again.
#![tactic(auto)]

ghost use Rattle.std.specs.Prelude.{◌≡◌, ◌++◌, ◌+◌, ◌*◌, ◌-◌, ◌≤◌, ◌<◌, length};
ghost use Rattle.answer.specs.Answer.{write_answer, write_bytes};
ghost use Rattle.answer.specs.Numbers.{all_at_most, among};
ghost use Rattle.answer.specs.Parts.{written};
ghost use Rattle.board_builder.specs.BoardBuilder.{numbers};
ghost use Rattle.move_list.specs.MoveList.{longest_list};
ghost use Rattle.chess_move.specs.Number.{last_move};
ghost use Rattle.position.specs.Layout.{half_at, full_at, check_at, moves_at, position_size, two_bytes_at, moves_from};
ghost use Rattle.stored_position.specs.Bytes.{move_bytes, counter_bytes, position_bytes, position_check, position_given, is_position, lists_move};
ghost use Rattle.stored_position.specs.CodeParts.{record_fits, list_fits, list_fits_with, rest_fits_with};

use answer::{ACCEPTED, Answer, BAD_LIST, OUT_OF_RANGE, OUTPUT_TOO_SHORT, byte_at, front};
use board_builder::{BoardBuilder, RECORD_SIZE, SIDE_AT};
use chess_move::LAST_MOVE;
use position::{CHECK_AT, FULL_AT, HALF_AT, LENGTH_AT, MOVES_AT, POSITION_SIZE};

// Entries that are looked at together, whether used or not, where the list is shorter, as nearly every list is: a length that is known to the compiler
// turns the loops into straight code, and no branch depends on the list's length. The large block is for the few lists that the small one does not hold.

const SMALL_BLOCK: usize = 48;

const LARGE_BLOCK: usize = 64;

// What is wrong with a position: 5 for the board or the in-check byte, 6 for the list, or 0. A number and no Result: it goes as it is into the answers of the
// C interface, and the definition `position_check` says it.
pub fn check(b: BoardBuilder, in_check: u8, list: &[u16]) -> u64
    ensures { result ≡ position_check (position_given b in_check list.now) }
{
    if !b.in_range() {
        return OUT_OF_RANGE;
    }
    if 1 < in_check {
        return OUT_OF_RANGE;
    }
    if !move_list::in_range(list) {
        return BAD_LIST;
    }
    ACCEPTED
}

// The 68 numbers, and the counters in two bytes each, low first.
fn write_record(b: BoardBuilder, out: &mut [u8])
    requires { check_at ≤ length out.old }
    ensures { out.new ≡ written out.old 0 (numbers b ++ counter_bytes b.half_moves b.full_moves) }
{
    out[..SIDE_AT].copy_from_slice(&b.pieces);
    let [half_low, half_high] = b.half_moves.to_le_bytes();
    let [full_low, full_high] = b.full_moves.to_le_bytes();
    out[SIDE_AT..CHECK_AT].copy_from_slice(&[
        b.side_to_move,
        b.white_castle_rights,
        b.black_castle_rights,
        b.en_passant,
        half_low,
        half_high,
        full_low,
        full_high,
    ]);
}

// Two bytes per move, low first.
fn write_moves(list: &[u16], at: usize, out: &mut [u8])
    requires { at + 2 * length list.now ≤ length out.old }
    ensures { out.new ≡ written out.old at (move_bytes list.now) }
{
    for (i, m) in list.iter().enumerate() {
        let [low, high] = m.to_le_bytes();
        out[at + 2 * i] = low;
        out[at + 2 * i + 1] = high;
    }
}

fn write_position(b: BoardBuilder, in_check: u8, list: &[u16], out: &mut [u8])
    requires { (position_size ≤ length out.old) × (length list.now ≤ longest_list) }
    ensures { out.new ≡ written out.old 0 (position_bytes (position_given b in_check list.now)) }
{
    let entries = list.len();
    write_record(b, out);
    out[CHECK_AT] = in_check;
    out[LENGTH_AT] = entries as u8;
    write_moves(list, MOVES_AT, out);
    out[MOVES_AT + 2 * entries..POSITION_SIZE].fill(0);
}

// Writes a position to the front of `out`. Checks 5, 6, then 7.
pub fn to_bytes(b: BoardBuilder, in_check: u8, list: &[u16], out: &mut [u8]) -> Answer
    ensures answer { result ≡ write_answer (position_check (position_given b in_check list.now))
        (position_bytes (position_given b in_check list.now)) (length out.old) }
    ensures bytes { out.new ≡ write_bytes (position_check (position_given b in_check list.now))
        (position_bytes (position_given b in_check list.now)) out.old }
{
    let number = check(b, in_check, list);
    if number != ACCEPTED {
        return answer::refused(number);
    }
    if out.len() < POSITION_SIZE {
        return Answer {
            number: OUTPUT_TOO_SHORT,
            value: POSITION_SIZE as u64,
        };
    }
    write_position(b, in_check, list, out);
    answer::accepted(POSITION_SIZE as u64)
}

// The number of the move in an entry.
fn entry(s: &[u8; POSITION_SIZE], i: usize) -> u16
    requires { i < longest_list }
    ensures { result ≡ two_bytes_at s.now (moves_at + 2 * i) }
{
    let at = MOVES_AT + 2 * i;
    u16::from_le_bytes([s[at], s[at + 1]])
}

// Whether the first `entries` entries are moves: without a branch, so that many are taken at a time. That there is room for them is asked of four functions,
// and is no type: the length that is lent is a byte, and these loops run over words.
fn moves_in_range(s: &[u8; POSITION_SIZE], entries: usize) -> bool
    requires { entries ≤ longest_list }
    ensures { result ≡ all_at_most last_move (moves_from s.now moves_at entries) }
{
    let mut above: u16 = 0;
    for i in 0..entries {
        above |= move_list::over(entry(s, i), LAST_MOVE as u16);
    }
    above == 0
}

// Whether a move is one of the first `entries` entries: without a branch, as above.
fn has_move(s: &[u8; POSITION_SIZE], entries: usize, m: u16) -> bool
    requires { entries ≤ longest_list }
    ensures { result ≡ among m (moves_from s.now moves_at entries) }
{
    let mut found = false;
    for i in 0..entries {
        found = answer::either(found, entry(s, i) == m);
    }
    found
}

// Whether a list that is shorter than a block is of moves, with zeros past it. The zeros are looked at in two parts that overlap, each of one length; after
// that the whole block may be looked at for moves.
fn is_short_list(s: &[u8; POSITION_SIZE], entries: usize, block: usize) -> bool
    requires { (entries < block) × (2 * block ≤ longest_list) }
    ensures { result ≡ list_fits s.now entries }
{
    let end = MOVES_AT + 2 * entries;
    if !answer::all_at_most(&s[end..end + 2 * block], 0) {
        return false;
    }
    let behind = MOVES_AT + 2 * (block - 1);
    if !answer::all_at_most(&s[behind..], 0) {
        return false;
    }
    moves_in_range(s, block)
}

// Whether such a list has a move too. The bytes past it are 0, so that all of the block may be looked at for any move but 0.
fn is_short_list_with(s: &[u8; POSITION_SIZE], entries: usize, block: usize, m: u16) -> bool
    requires { (entries < block) × (2 * block ≤ longest_list) × (m ≡ 0 → ⊥) }
    ensures { result ≡ list_fits_with s.now entries m }
{
    is_short_list(s, entries, block) && has_move(s, block, m)
}

fn is_list(s: &[u8; POSITION_SIZE], entries: usize) -> bool
    requires { entries ≤ longest_list }
    ensures { result ≡ list_fits s.now entries }
{
    moves_in_range(s, entries) && answer::all_at_most(&s[MOVES_AT + 2 * entries..], 0)
}

fn is_list_with(s: &[u8; POSITION_SIZE], entries: usize, m: u16) -> bool
    requires { entries ≤ longest_list }
    ensures { result ≡ list_fits_with s.now entries m }
{
    is_list(s, entries) && has_move(s, entries, m)
}

// The counters of the record in front; bytes that are not there count as 0.

fn counter_at(s: &[u8], at: usize) -> u16
    requires { at < position_size }
    ensures { result ≡ two_bytes_at s.now at }
{
    u16::from_le_bytes([byte_at(s, at), byte_at(s, at + 1)])
}

pub fn half_of(s: &[u8]) -> u16
    ensures { result ≡ two_bytes_at s.now half_at }
{
    counter_at(s, HALF_AT)
}

pub fn full_of(s: &[u8]) -> u16
    ensures { result ≡ two_bytes_at s.now full_at }
{
    counter_at(s, FULL_AT)
}

// Whether the record in front is in range.
pub fn has_record(s: &[u8]) -> bool
    ensures { result ≡ record_fits s.now }
{
    board_builder::counters_in_range(half_of(s), full_of(s))
        && board_builder::numbers_in_range(front(s, RECORD_SIZE))
}

// Whether bytes are exactly those of a position in range.
pub fn is_position(s: &[u8]) -> bool
    ensures { result ≡ is_position s.now }
{
    let Some(p) = s.as_array::<POSITION_SIZE>() else {
        return false;
    };
    if !has_record(p) {
        return false;
    }
    if 1 < p[CHECK_AT] {
        return false;
    }
    is_list(p, p[LENGTH_AT] as usize)
}

// Whether all but the record is that of a position, and the position lists a move.
pub fn is_rest_with(s: &[u8], m: u16) -> bool
    ensures { result ≡ rest_fits_with s.now m }
{
    let Some(p) = s.as_array::<POSITION_SIZE>() else {
        return false;
    };
    if 1 < p[CHECK_AT] {
        return false;
    }
    let entries = p[LENGTH_AT] as usize;
    if m == 0 {
        return is_list_with(p, entries, m);
    }
    if entries < SMALL_BLOCK {
        return is_short_list_with(p, entries, SMALL_BLOCK, m);
    }
    if entries < LARGE_BLOCK {
        return is_short_list_with(p, entries, LARGE_BLOCK, m);
    }
    is_list_with(p, entries, m)
}

// Whether the list of a position has a move; bytes that are not as long as a position have none.
pub fn lists(s: &[u8], m: u64) -> bool
    ensures { result ≡ lists_move s.now m }
{
    let Some(p) = s.as_array::<POSITION_SIZE>() else {
        return false;
    };
    for i in 0..p[LENGTH_AT] as usize {
        if entry(p, i) as u64 == m {
            return true;
        }
    }
    false
}
