// Reads a game roll (document 02, orders 1 and 12).
#![tactic(auto)]

ghost use Rattle.std.specs.Prelude.{◌≡◌, true, ◌+◌, ◌*◌, ◌≤◌, ◌<◌, length, take, drop, get_or, IfOk, IfErr};
ghost use Rattle.answer.specs.Parts.{written};
ghost use Rattle.board_builder.specs.BoardBuilder.{record_size, board_of, with_counters};
ghost use Rattle.action.specs.Layout.{fields};
ghost use Rattle.game_rules.specs.Limits.{limits};
ghost use Rattle.roll_text.specs.Number.{read_groups, read_number};
ghost use Rattle.roll_text.specs.Roll.{largest_numbers, read_numbers, read_counters, refusal, is_code, read_entry, read_actions, read_by, read_roll};
ghost use Rattle.roll_reader.specs.Checked.{checked};
ghost use Rattle.roll_reader.specs.CodeShort.{ShortMove};
ghost use Rattle.roll_reader.specs.CodeStart.{Started};
ghost use Rattle.roll_reader.specs.CodeWalk.{acts_check, front_check, stage_number, Accepted};
ghost use Rattle.roll_text.specs.Calls.{front_number, acts_number, acts_over, is_acts, roll_answer, roll_over, judged_by, judged, judged_old};

use action::ACTION_SIZE;
use actions::NO_MOVE;
use answer::{ACCEPTED, BAD_ROLL, LOG_FULL, OUT_OF_RANGE, PART_TOO_SHORT, front, rest};
use board_builder::{BoardBuilder, LAST_COUNT, RECORD_SIZE};
use chess_move::LAST_MOVE;
use game_rules::{ACTIONS_LENGTH, MAX_ACTIONS, MAX_MOVES};
use roll_text::{Entry, MOST_GROUPS, Roll};

// What a look at a roll answers: a number of document 01's table, how many actions the roll has, and its start's counters.
// A number beside the rest and no Result: the rows of crate log_rows (`LooksAtRolls`) say of `checked` what stands here for a refused roll.
#[derive(Clone, Copy)]
pub struct Checked {
    pub number: u64,
    pub actions: u64,
    pub half_moves: u16,
    pub full_moves: u16,
}

const MOVE_CODE: u64 = 2;

const MOVE_BYTE: u8 = 2;

// The number at the front with how many bytes it takes, in at most `k` groups.
fn read_groups(s: &[u8], k: usize) -> Option<(u64, usize)>
    requires { k ≤ 5 }
    ensures { result ≡ read_groups k s.now }
{
    if k == 0 {
        return None;
    }
    if s.len() == 0 {
        return None;
    }
    let b = s[0];
    if b < 128 {
        return Some((b as u64, 1));
    }
    let (n, size) = read_groups(rest(s, 1), k - 1)?;
    if n == 0 {
        return None;
    }
    Some(((b % 128) as u64 + 128 * n, size + 1))
}

fn read_number(s: &[u8]) -> Option<(u64, usize)>
    ensures { result ≡ read_number s.now }
{
    read_groups(s, MOST_GROUPS)
}

fn is_code(code: u64) -> bool
    ensures { result ≡ is_code code }
{
    matches!(code, 4 | 5 | 6 | 8 | 10 | 11)
}

// The action at the front of a text; `full` means that no more moves may come. It and `counted` below are values, as the definitions take them.
fn read_entry(s: &[u8], full: bool) -> Result<Entry, u64>
    ensures { result ≡ read_entry full s.now }
{
    let (code, size) = read_number(s).ok_or(BAD_ROLL)?;
    if code != MOVE_CODE {
        if is_code(code) {
            return Ok(Entry::Plain(code, size));
        }
        return Err(BAD_ROLL);
    }
    if full {
        return Err(LOG_FULL);
    }
    let (number, more) = read_number(rest(s, size)).ok_or(BAD_ROLL)?;
    if LAST_MOVE < number {
        return Err(BAD_ROLL);
    }
    Ok(Entry::Move(number, size + more))
}

// The number of a move at `at` whose number has two groups, as nearly every move's has, or `NO_MOVE`, also if no more
// moves may come: a plain number, so that the loops below go on without waiting for an enum in memory.
fn short_move(s: &[u8], at: usize, left: usize) -> u64
    ensures { ShortMove s.now at left result }
{
    if left == 0 {
        return NO_MOVE;
    }
    if s.len() < 3 {
        return NO_MOVE;
    }
    if s.len() - 3 < at {
        return NO_MOVE;
    }
    if s[at] != MOVE_BYTE {
        return NO_MOVE;
    }
    let low = s[at + 1];
    if low < 128 {
        return NO_MOVE;
    }
    let high = s[at + 2];
    if 127 < high {
        return NO_MOVE;
    }
    if high == 0 {
        return NO_MOVE;
    }
    (low % 128) as u64 + 128 * (high as u64)
}

// The first pass: what is wrong with the text of `n` actions, if anything is.
fn judge_actions(s: &[u8], n: usize, most: usize) -> Result<(), u64>
    ensures check { result ≡ acts_check (read_actions n most s.now) }
    ensures number { stage_number result ≡ acts_number (read_actions n most s.now) }
{
    let mut at: usize = 0;
    let mut left = most;
    for _ in 0..n {
        let m = short_move(s, at, left);
        if m < NO_MOVE {
            at += 3;
            left -= 1;
            continue;
        }
        match read_entry(rest(s, at), left == 0)? {
            Entry::Move(_, size) => {
                at += size;
                left -= 1;
            }
            Entry::Plain(_, size) => {
                at += size;
            }
        }
    }
    if at < s.len() {
        return Err(BAD_ROLL);
    }
    Ok(())
}

fn put_action(out: &mut [u8], to: usize, kind: u8, colour: u8, number: u64)
    requires { (to + 4 ≤ length out.old) × (number ≤ 28671) }
    ensures { out.new ≡ written out.old to (fields kind colour number) }
{
    let [low, high] = (number as u16).to_le_bytes();
    out[to] = kind;
    out[to + 1] = colour;
    out[to + 2] = low;
    out[to + 3] = high;
}

// The second pass, over a text that the first has accepted.
fn write_actions(s: &[u8], n: usize, most: usize, out: &mut [u8])
    requires { (is_acts (read_actions n most s.now) ≡ true) × (4 * n ≤ length out.old) }
    ensures { out.new ≡ acts_over (read_actions n most s.now) out.old }
{
    let mut at: usize = 0;
    let mut left = most;
    for i in 0..n {
        let to = ACTION_SIZE * i;
        let m = short_move(s, at, left);
        if m < NO_MOVE {
            put_action(out, to, 1, 0, m);
            at += 3;
            left -= 1;
            continue;
        }
        let Ok(e) = read_entry(rest(s, at), left == 0) else {
            return;
        };
        match e {
            Entry::Move(number, size) => {
                put_action(out, to, 1, 0, number);
                at += size;
                left -= 1;
            }
            Entry::Plain(code, size) => {
                put_action(out, to, (code / 2) as u8, (code % 2) as u8, 0);
                at += size;
            }
        }
    }
}

// The largest that number `i` of the record may be.
fn largest_at(i: usize) -> u64
    requires { i < 68 }
    ensures { result ≡ get_or largest_numbers i 0 }
{
    match i {
        0..64 => 12,
        64 => 1,
        65 | 66 => 3,
        _ => 8,
    }
}

// What is wrong with a text's record numbers, from the left, if anything is.
fn judge_numbers(s: &[u8]) -> Result<(), u64>
    ensures check { result ≡ front_check (read_numbers largest_numbers s.now) }
    ensures number { stage_number result ≡ front_number (read_numbers largest_numbers s.now) }
{
    for i in 0..RECORD_SIZE {
        let (n, _) = read_number(rest(s, i)).ok_or(BAD_ROLL)?;
        if largest_at(i) < n {
            return Err(OUT_OF_RANGE);
        }
    }
    Ok(())
}

// The same, in one step if all is well: the numbers of a record in range are one byte each.
fn judge_record(s: &[u8]) -> Result<(), u64>
    ensures check { result ≡ front_check (read_numbers largest_numbers s.now) }
    ensures number { stage_number result ≡ front_number (read_numbers largest_numbers s.now) }
{
    if board_builder::numbers_in_range(front(s, RECORD_SIZE)) {
        return Ok(());
    }
    judge_numbers(s)
}

// The half-move clock and the move number at the front of a text, and how many bytes they take; an old roll has none and gets 0 and 1.
fn read_counters(s: &[u8], counted: bool) -> Result<(u16, u16, usize), u64>
    ensures { result ≡ read_counters counted s.now }
{
    if !counted {
        return Ok((0, 1, 0));
    }
    let (half, size) = read_number(s).ok_or(BAD_ROLL)?;
    if LAST_COUNT < half {
        return Err(OUT_OF_RANGE);
    }
    let (full, more) = read_number(rest(s, size)).ok_or(BAD_ROLL)?;
    if full == 0 {
        return Err(OUT_OF_RANGE);
    }
    if LAST_COUNT < full {
        return Err(OUT_OF_RANGE);
    }
    Ok((half as u16, full as u16, size + more))
}

// The counters of a start and how many bytes they take behind its 68 numbers, or what is wrong with the start.
fn read_start(s: &[u8], counted: bool) -> Result<(u16, u16, usize), u64>
    ensures { Started counted s.now result }
{
    judge_record(s)?;
    read_counters(rest(s, RECORD_SIZE), counted)
}

fn board_at(s: &[u8], half: u16, full: u16) -> BoardBuilder
    requires { record_size ≤ length s.now }
    ensures { result ≡ with_counters (board_of s.now) half full }
{
    BoardBuilder {
        half_moves: half,
        full_moves: full,
        ..BoardBuilder::from_numbers(s.first_chunk().unwrap())
    }
}

fn refusal(number: u64) -> Roll
    ensures { result ≡ roll_answer (refusal number) }
{
    Roll {
        number,
        actions: 0,
        board: BoardBuilder::none(),
    }
}

// A roll up to its actions, which are judged: the start's counters, and the text of `actions` actions.
#[derive(Clone, Copy)]
struct Walked<'a> {
    half: u16,
    full: u16,
    actions: u64,
    text: &'a [u8],
}

// Walks over a roll, with counters or an old one without, or tells what is wrong with it, from the left.
fn walk(s: &[u8], counted: bool) -> Result<Walked<'_>, u64>
    ensures accepted { IfOk result (λ w. Accepted counted s.now w.half w.full w.actions w.text.now) }
    ensures refused { IfErr result (λ k. read_by counted limits s.now ≡ refusal k) }
{
    let (half, full, size) = read_start(s, counted)?;
    let behind = rest(rest(s, RECORD_SIZE), size);
    let (actions, more) = read_number(behind).ok_or(BAD_ROLL)?;
    if (MAX_ACTIONS as u64) < actions {
        return Err(LOG_FULL);
    }
    let text = rest(behind, more);
    judge_actions(text, actions as usize, MAX_MOVES)?;
    Ok(Walked {
        half,
        full,
        actions,
        text,
    })
}

// Reads a roll, with counters or an old one without: its actions to the front of `part`, 4 bytes each, or nothing.
fn read_by(s: &[u8], counted: bool, part: &mut [u8]) -> Roll
    ensures answer { result ≡ roll_answer (judged_by counted limits s.now (length part.old)) }
    ensures bytes { part.new ≡ roll_over (judged_by counted limits s.now (length part.old)) part.old }
{
    if part.len() < ACTIONS_LENGTH {
        return refusal(PART_TOO_SHORT);
    }
    match walk(s, counted) {
        Ok(w) => {
            write_actions(w.text, w.actions as usize, MAX_MOVES, part);
            Roll {
                number: ACCEPTED,
                actions: w.actions,
                board: board_at(s, w.half, w.full),
            }
        }
        Err(number) => refusal(number),
    }
}

// Reads a roll: its actions to the front of `part`, 4 bytes each, or nothing. Checks 16, then from the left 5, 13, 17.
pub fn read(s: &[u8], part: &mut [u8]) -> Roll
    ensures answer { result ≡ roll_answer (judged limits s.now (length part.old)) }
    ensures bytes { part.new ≡ roll_over (judged limits s.now (length part.old)) part.old }
{
    read_by(s, true, part)
}

// The same for an old roll, which has no counters: its start gets 0 and 1.
pub fn read_old(s: &[u8], part: &mut [u8]) -> Roll
    ensures answer { result ≡ roll_answer (judged_old limits s.now (length part.old)) }
    ensures bytes { part.new ≡ roll_over (judged_old limits s.now (length part.old)) part.old }
{
    read_by(s, false, part)
}

fn unread(number: u64) -> Checked
    ensures { result ≡ checked (refusal number) }
{
    Checked {
        number,
        actions: 0,
        half_moves: 0,
        full_moves: 0,
    }
}

// What is wrong with a roll, as `read` tells it with a part that is long enough, or 0 with how many actions the roll has and its start's counters. Nothing
// is written.
pub fn check(s: &[u8]) -> Checked
    ensures { result ≡ checked (read_roll limits s.now) }
{
    match walk(s, true) {
        Ok(w) => Checked {
            number: ACCEPTED,
            actions: w.actions,
            half_moves: w.half,
            full_moves: w.full,
        },
        Err(number) => unread(number),
    }
}
