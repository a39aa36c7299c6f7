// Tells what differs between two games (document 02, orders 10 and 12): reads two rolls and writes a line for each start number and for the first action
// that differs.
#![tactic(auto)]

ghost use Rattle.std.specs.Prelude.{◌≡◌, ◌++◌, ◌+◌, ◌*◌, ◌≤◌, ◌<◌, length, drop, IfSome};
ghost use Rattle.board_builder.specs.BoardBuilder.{record_size};
ghost use Rattle.game_rules.specs.Limits.{limits};
ghost use Rattle.roll_text.specs.Number.{number_text};
ghost use Rattle.differences_text.specs.Differences.{difference, start_key, if_differs, action_key, pair_text, line_text, lines_text};
ghost use Rattle.differences_text.specs.Calls.{differences_answer, differences_room};
ghost use Rattle.differences_text.specs.Promises.{longest};
ghost use Rattle.differences.specs.CodeEntries.{entry_size, entry_number, two_groups, three_groups, same_entry};
ghost use Rattle.differences.specs.CodeTexts.{start_lines, counted_lines, action_line, actions_at};

mod text;

use answer::{ACCEPTED, Answer, byte_at, rest};
use board_builder::RECORD_SIZE;
use roll_reader::Checked;
use text::Text;

// A move's code in a roll.
const MOVE_CODE: u8 = 2;

// What stands behind a key: ` X Y` and a newline.
fn push_pair(text: &mut Text, x: u64, y: u64)
    requires { length text.old + length (pair_text x y) ≤ longest }
    ensures { text.new ≡ text.old ++ pair_text x y }
{
    text.push(b" ");
    text.push_number(x);
    text.push(b" ");
    text.push_number(y);
    text.push(b"\n");
}

// The key of number `i` of a start.
fn push_key(text: &mut Text, i: usize)
    requires { length text.old + length (start_key i) ≤ longest }
    ensures { text.new ≡ text.old ++ start_key i }
{
    match i {
        0..64 => text.push_number(i as u64),
        64 => text.push(b"side"),
        65 => text.push(b"white"),
        66 => text.push(b"black"),
        67 => text.push(b"ep"),
        68 => text.push(b"half"),
        _ => text.push(b"full"),
    }
}

// The line of number `i` of two starts, or nothing if they are equal there.
fn push_start(text: &mut Text, i: usize, x: u64, y: u64)
    requires { length text.old + length (lines_text (if_differs (start_key i) x y)) ≤ longest }
    ensures { text.new ≡ text.old ++ lines_text (if_differs (start_key i) x y) }
{
    if x == y {
        return;
    }
    push_key(text, i);
    push_pair(text, x, y);
}

// The lines of two starts' 68 numbers before the counters, which a roll has in front, one byte per number.
fn push_starts(text: &mut Text, first: &[u8], second: &[u8])
    requires record_size_in_bounds { (record_size ≤ length first.now) × (record_size ≤ length second.now) }
    requires text_in_bounds { length text.old + length (start_lines first.now second.now) ≤ longest }
    ensures { text.new ≡ text.old ++ start_lines first.now second.now }
{
    for i in 0..RECORD_SIZE {
        push_start(text, i, first[i] as u64, second[i] as u64);
    }
}

// The lines of two starts' counters.
fn push_counters(text: &mut Text, game: Checked, other: Checked)
    requires { length text.old + length (counted_lines game other) ≤ longest }
    ensures { text.new ≡ text.old ++ counted_lines game other }
{
    push_start(
        text,
        RECORD_SIZE,
        game.half_moves as u64,
        other.half_moves as u64,
    );
    push_start(
        text,
        RECORD_SIZE + 1,
        game.full_moves as u64,
        other.full_moves as u64,
    );
}

// How many bytes the action at the front of a text takes.
fn entry_size(text: &[u8]) -> usize
    ensures { (result ≡ entry_size text.now) × (result ≤ 4) }
{
    if byte_at(text, 0) != MOVE_CODE {
        return 1;
    }
    if byte_at(text, 1) < 128 {
        return 2;
    }
    if byte_at(text, 2) < 128 {
        return 3;
    }
    4
}

fn two_groups(low: u8, middle: u8) -> u64
    ensures { result ≡ two_groups low middle }
{
    (low % 128) as u64 + 128 * (middle as u64)
}

fn three_groups(low: u8, middle: u8, high: u8) -> u64
    ensures { result ≡ three_groups low middle high }
{
    (low % 128) as u64 + 128 * ((middle % 128) as u64 + 128 * (high as u64))
}

fn move_number(number: u64) -> u64
    requires { number < 16777216 }
    ensures { result ≡ 2 + 16 * number }
{
    2 + 16 * number
}

// Its number: the roll code + 16 × the move.
fn entry_number(text: &[u8]) -> u64
    ensures { result ≡ entry_number text.now }
{
    let code = byte_at(text, 0);
    if code != MOVE_CODE {
        return code as u64;
    }
    let low = byte_at(text, 1);
    if low < 128 {
        return move_number(low as u64);
    }
    let middle = byte_at(text, 2);
    if middle < 128 {
        return move_number(two_groups(low, middle));
    }
    move_number(three_groups(low, middle, byte_at(text, 3)))
}

// How many bytes the actions at the front of two texts take if they are the same, as nearly all of two copies of a game are.
fn same_entry(text: &[u8], other: &[u8]) -> Option<usize>
    ensures size { result ≡ same_entry text.now other.now }
    ensures most { IfSome result (λ k. k ≤ 4) }
{
    let code = byte_at(text, 0);
    if code != byte_at(other, 0) {
        return None;
    }
    if code != MOVE_CODE {
        return Some(1);
    }
    let low = byte_at(text, 1);
    if low != byte_at(other, 1) {
        return None;
    }
    if low < 128 {
        return Some(2);
    }
    let middle = byte_at(text, 2);
    if middle != byte_at(other, 2) {
        return None;
    }
    if middle < 128 {
        return Some(3);
    }
    if byte_at(text, 3) != byte_at(other, 3) {
        return None;
    }
    Some(4)
}

// The line of action `i`.
fn push_action(text: &mut Text, i: usize, x: u64, y: u64)
    requires { length text.old + length (line_text (difference (action_key i) x y)) ≤ longest }
    ensures { text.new ≡ text.old ++ line_text (difference (action_key i) x y) }
{
    text.push(b"action ");
    text.push_number(i as u64);
    push_pair(text, x, y);
}

// The line of the first action that differs, or nothing: of the first `counted` of a text and the first `other` of another.
fn push_actions(text: &mut Text, first: &[u8], counted: usize, second: &[u8], other: usize)
    requires counted_bound { (counted ≤ 10000) × (other ≤ 10000) }
    requires text_in_bounds { length text.old + length (action_line counted first.now other second.now) ≤ longest }
    ensures { text.new ≡ text.old ++ action_line counted first.now other second.now }
{
    let mut at: usize = 0;
    let mut to: usize = 0;
    for i in 0..counted {
        let left = rest(first, at);
        if other <= i {
            return push_action(text, i, entry_number(left), 0);
        }
        let against = rest(second, to);
        if let Some(same) = same_entry(left, against) {
            at += same;
            to += same;
            continue;
        }
        let x = entry_number(left);
        let y = entry_number(against);
        if x != y {
            return push_action(text, i, x, y);
        }
        at += entry_size(left);
        to += entry_size(against);
    }
    if counted < other {
        push_action(text, counted, 0, entry_number(rest(second, to)));
    }
}

// How many bytes a number of one or two groups takes in a roll. Not roll_writer's `number_length`: crates.txt doesn't let this crate know that one.
fn number_size(number: u64) -> usize
    requires { number < 16384 }
    ensures { (result ≡ length (number_text number)) × (result ≤ 2) }
{
    if number < 128 {
        return 1;
    }
    2
}

// What a roll that was looked at has behind its start and its count.
fn actions_text(roll: &[u8], game: Checked) -> &[u8]
    requires { (game.half_moves < 16384) × ((game.full_moves < 16384) × (game.actions < 16384)) }
    ensures { result.now ≡ drop (actions_at game.half_moves game.full_moves game.actions) roll.now }
{
    let counters = number_size(game.half_moves as u64) + number_size(game.full_moves as u64);
    rest(roll, RECORD_SIZE + counters + number_size(game.actions))
}

// Writes a line for each start number and for the first action that differs. Checks the roll reader's numbers, first roll first, then 7.
pub fn differences(first: &[u8], second: &[u8], out: &mut [u8]) -> Answer
    ensures answer { result ≡ differences_answer limits first.now second.now (length out.old) }
    ensures bytes { out.new ≡ differences_room limits first.now second.now out.old }
{
    let game = roll_reader::check(first);
    if game.number != ACCEPTED {
        return answer::refused(game.number);
    }
    if answer::same_bytes(first, second) {
        return answer::accepted(0);
    }
    let other = roll_reader::check(second);
    if other.number != ACCEPTED {
        return answer::refused(other.number);
    }
    let mut text = Text::new();
    push_starts(&mut text, first, second);
    push_counters(&mut text, game, other);
    push_actions(
        &mut text,
        actions_text(first, game),
        game.actions as usize,
        actions_text(second, other),
        other.actions as usize,
    );
    answer::write_text(text.as_bytes(), out)
}
