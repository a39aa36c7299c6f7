// Writes a game roll (document 02, orders 1 and 12).
#![tactic(auto)]

ghost use Rattle.std.specs.Prelude.{◌≡◌, true, cond, ◌+◌, ◌*◌, ◌≤◌, ◌<◌, eqb, ltb, length, IfSome, ℕ, List};
ghost use Rattle.answer.specs.Answer.{write_answer, write_bytes};
ghost use Rattle.answer.specs.Parts.{written};
ghost use Rattle.chess_move.specs.Number.{of_bytes};
ghost use Rattle.board_builder.specs.BoardBuilder.{in_range};
ghost use Rattle.game_rules.specs.Limits.{limits};
ghost use Rattle.roll_text.specs.Number.{most_groups, reach, groups, number_text};
ghost use Rattle.roll_text.specs.Roll.{code_of, action_text};
ghost use Rattle.roll_text.specs.Calls.{fields_at, moves_by_kind, write_check, game_text};
ghost use Rattle.roll_writer.specs.CodeSizes.{Short, start_text, start_most, move_size, plain_size, size_at, actions_size, measured, text_of, are_first};

use action::ACTION_SIZE;
use answer::{Answer, BAD_ROLL, LOG_FULL, OUT_OF_RANGE, OUTPUT_TOO_SHORT, PART_TOO_SHORT};
use board_builder::{BoardBuilder, RECORD_SIZE};
use chess_move::LAST_MOVE;
use game_rules::{ACTIONS_LENGTH, MAX_ACTIONS, MAX_MOVES};
use roll_text::{Fields, MOST_GROUPS};

// Writes a number in at most `k` groups, and hands back where it ends.
// A place beside the slice, here and below, is no struct: each function would take one apart at its start and put one together at its end.
fn put_groups(out: &mut [u8], at: usize, n: u64, k: usize) -> usize
    requires le_k { (1 ≤ k) × (n < reach k) }
    requires n_in_bounds { at + length (groups k n) ≤ length out.old }
    ensures end { result ≡ at + length (groups k n) }
    ensures bytes { out.new ≡ written out.old at (groups k n) }
{
    if n < 128 {
        out[at] = n as u8;
        return at + 1;
    }
    out[at] = 128 + (n % 128) as u8;
    put_groups(out, at + 1, n / 128, k - 1)
}

// Writes a number, and hands back where it ends.
fn put_number(out: &mut [u8], at: usize, n: u64) -> usize
    requires small { n < reach most_groups }
    requires fits { at + length (number_text n) ≤ length out.old }
    ensures end { result ≡ at + length (number_text n) }
    ensures bytes { out.new ≡ written out.old at (number_text n) }
{
    put_groups(out, at, n, MOST_GROUPS)
}

// How many groups a number of at most three takes.
fn number_length(n: u64) -> usize
    requires { n < 2097152 }
    ensures { result ≡ length (number_text n) }
{
    if n < 128 {
        return 1;
    }
    if n < 16384 {
        return 2;
    }
    3
}

// The first `n` actions of the part, each an array from here on. What is asked is asked here alone: a host lends `acts` and says `n` (C interface).
fn first_actions(acts: &[u8], n: usize) -> &[[u8; ACTION_SIZE]]
    requires { 4 * n ≤ length acts.now }
    ensures { are_first result.now acts.now × (length result.now ≡ n) }
{
    &acts.as_chunks::<ACTION_SIZE>().0[..n]
}

fn fields_of(action: &[u8; ACTION_SIZE]) -> Fields
    ensures { result ≡ fields_at action.now }
{
    let [kind, colour, low, high] = *action;
    Fields {
        kind,
        colour,
        number: u16::from_le_bytes([low, high]),
    }
}

fn code_of(kind: u8, colour: u8) -> u64
    ensures { result ≡ code_of kind colour }
{
    kind as u64 * 2 + colour as u64
}

// A move's code is one byte, and its number is behind it.
fn move_size(colour: u8, number: u16) -> Option<usize>
    ensures size { result ≡ move_size colour number }
    ensures most { IfSome result (λ k. k ≤ 4) }
{
    if colour != 0 || LAST_MOVE < number as u64 {
        return None;
    }
    Some(1 + number_length(number as u64))
}

// An action without a move is its code, one byte.
fn plain_size(bytes: &[u8]) -> Option<usize>
    ensures { result ≡ plain_size bytes.now }
{
    action::from_bytes(bytes)?;
    Some(1)
}

// How many bytes an action's text has, if it is an action in range.
fn action_size(action: &[u8; ACTION_SIZE]) -> Option<usize>
    ensures size { result ≡ size_at action.now }
    ensures most { IfSome result (λ k. k ≤ 4) }
{
    let f = fields_of(action);
    if f.kind == 1 {
        return move_size(f.colour, f.number);
    }
    plain_size(action)
}

// The length of the actions' text, if each of them is an action in range.
fn actions_size(actions: &[[u8; ACTION_SIZE]]) -> Option<usize>
    requires { length actions.now ≤ limits.most_actions }
    ensures size { (acts : List ℕ) → are_first actions.now acts → result ≡ actions_size (length actions.now) acts }
    ensures most { IfSome result (λ k. k ≤ 4 * length actions.now) }
{
    let mut k: usize = 0;
    for action in actions {
        k += action_size(action)?;
    }
    Some(k)
}

// A move whose number has two groups, as nearly every move's has.
fn is_short(f: Fields) -> bool
    ensures { result ≡ true → Short f.kind f.colour f.number }
{
    f.kind == 1 && f.colour == 0 && 128 <= f.number && f.number < 16384
}

// Its three bytes, with no loop and no call.
fn put_short(out: &mut [u8], at: usize, number: u16) -> usize
    requires short { Short 1 0 number }
    requires number_in_bounds { at + length (action_text 1 0 number) ≤ length out.old }
    ensures end { result ≡ at + length (action_text 1 0 number) }
    ensures bytes { out.new ≡ written out.old at (action_text 1 0 number) }
{
    out[at] = 2;
    out[at + 1] = 128 + (number % 128) as u8;
    out[at + 2] = (number / 128) as u8;
    at + 3
}

// Writes an action's text, and hands back where it ends.
fn put_text(out: &mut [u8], at: usize, f: Fields) -> usize
    requires { at + length (action_text f.kind f.colour f.number) ≤ length out.old }
    ensures end { result ≡ at + length (action_text f.kind f.colour f.number) }
    ensures bytes { out.new ≡ written out.old at (action_text f.kind f.colour f.number) }
{
    if is_short(f) {
        return put_short(out, at, f.number);
    }
    if f.kind == 1 {
        let behind = put_number(out, at, code_of(f.kind, f.colour));
        return put_number(out, behind, f.number as u64);
    }
    put_number(out, at, code_of(f.kind, f.colour))
}

// Writes the actions' text, one right behind the other.
fn put_actions(actions: &[[u8; ACTION_SIZE]], out: &mut [u8], from: usize)
    requires { from + length (text_of actions.now) ≤ length out.old }
    ensures { out.new ≡ written out.old from (text_of actions.now) }
{
    let mut at = from;
    for action in actions {
        at = put_text(out, at, fields_of(action));
    }
}

// How many of the actions are of kind 1, whatever else their bytes say: 13 comes before 17.
fn moves_by_kind(actions: &[[u8; ACTION_SIZE]]) -> usize
    ensures { (acts : List ℕ) → are_first actions.now acts → result ≡ moves_by_kind acts (length actions.now) }
{
    let mut k: usize = 0;
    for action in actions {
        k += usize::from(action[0] == 1);
    }
    k
}

// Up to as many actions as there may be moves, nothing needs to be counted.
fn too_many_moves(actions: &[[u8; ACTION_SIZE]]) -> bool
    ensures { (acts : List ℕ) → are_first actions.now acts → result ≡ ltb limits.most_moves (moves_by_kind acts (length actions.now)) }
{
    MAX_MOVES < actions.len() && MAX_MOVES < moves_by_kind(actions)
}

// How many bytes the text of a start has: one for each of 68 numbers, then the counters.
fn start_size(b: BoardBuilder) -> usize
    requires { in_range b ≡ true }
    ensures { (result ≡ length (start_text b)) × (result ≤ start_most) }
{
    let half = number_length(b.half_moves as u64);
    let full = number_length(b.full_moves as u64);
    RECORD_SIZE + half + full
}

// Writes the text of a start, and hands back where it ends.
fn put_start(b: BoardBuilder, out: &mut [u8]) -> usize
    requires b_value { in_range b ≡ true }
    requires b_in_bounds { length (start_text b) ≤ length out.old }
    ensures end { result ≡ length (start_text b) }
    ensures bytes { out.new ≡ written out.old 0 (start_text b) }
{
    let half = b.half_moves as u64;
    let full = b.full_moves as u64;
    b.to_bytes(out);
    let at = put_number(out, RECORD_SIZE, half);
    put_number(out, at, full)
}

// The roll's length, or the first refusal of 16, 5, 13 for the count, then for the moves, 17.
fn measure(b: BoardBuilder, acts: &[u8], n: u64) -> Result<u64, u64>
    ensures { result ≡ measured (write_check limits b acts.now n) (game_text b acts.now n) }
{
    if acts.len() < ACTIONS_LENGTH {
        return Err(PART_TOO_SHORT);
    }
    if !b.in_range() {
        return Err(OUT_OF_RANGE);
    }
    if (MAX_ACTIONS as u64) < n {
        return Err(LOG_FULL);
    }
    let actions = first_actions(acts, n as usize);
    if too_many_moves(actions) {
        return Err(LOG_FULL);
    }
    let size = actions_size(actions).ok_or(BAD_ROLL)?;
    Ok((start_size(b) + number_length(n) + size) as u64)
}

fn put(b: BoardBuilder, acts: &[u8], n: usize, out: &mut [u8])
    requires n_value { write_check limits b acts.now n ≡ 0 }
    requires n_in_bounds { length (game_text b acts.now n) ≤ length out.old }
    ensures { out.new ≡ written out.old 0 (game_text b acts.now n) }
{
    let behind = put_start(b, out);
    let at = put_number(out, behind, n as u64);
    put_actions(first_actions(acts, n), out, at);
}

// Writes the roll of a start and its first `n` actions to the front of `out`. Checks 16, 5, 13, 17, then 7.
pub fn write(b: BoardBuilder, acts: &[u8], n: u64, out: &mut [u8]) -> Answer
    ensures answer { result ≡ write_answer (write_check limits b acts.now n) (game_text b acts.now n) (length out.old) }
    ensures bytes { out.new ≡ write_bytes (write_check limits b acts.now n) (game_text b acts.now n) out.old }
{
    let length = match measure(b, acts, n) {
        Ok(length) => length,
        Err(number) => return answer::refused(number),
    };
    if (out.len() as u64) < length {
        return Answer {
            number: OUTPUT_TOO_SHORT,
            value: length,
        };
    }
    put(b, acts, n as usize, out);
    answer::accepted(length)
}
