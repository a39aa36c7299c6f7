// A page of FENs at once: the single reader's answer for each line, put into two lent rooms.
ghost use Rattle.std.specs.Prelude.{◌≡◌, ◌*◌, ◌+◌, ◌≤◌, cond, [], ◌∷◌, ltb, length};
ghost use Rattle.answer.specs.Answer.{too_short, overwrite};
ghost use Rattle.answer.specs.Parts.{written};
ghost use Rattle.board_builder.specs.BoardBuilder.{numbers, record_size};
ghost use Rattle.fen_text.specs.Page.{told_size, line_count, page_records, page_told, page_answer, records_left, told_left};

use crate::lines::{line_count, line_end};
use crate::read_fen;
use answer::{Answer, OUTPUT_TOO_SHORT};
use board_builder::{BoardBuilder, RECORD_SIZE};

// How many numbers a line takes: the reader's answer and its offset.
const TOLD_SIZE: usize = 2;

fn too_short(lines: usize) -> Answer
    ensures { result ≡ too_short lines }
{
    Answer {
        number: OUTPUT_TOO_SHORT,
        value: lines as u64,
    }
}

fn put_record(board: BoardBuilder, records: &mut [u8], at: usize)
    requires { at + length (numbers board) ≤ length records.old }
    ensures { records.new ≡ written records.old at (numbers board) }
{
    board.to_bytes(&mut records[at..]);
}

fn put_told(number: u64, offset: u64, told: &mut [u64], at: usize)
    requires { at + told_size ≤ length told.old }
    ensures { told.new ≡ written told.old at (number ∷ offset ∷ []) }
{
    told[at] = number;
    told[at + 1] = offset;
}

// Where the next line starts, or the text's end.
fn past(end: usize, text: &[u8]) -> usize
    ensures { result ≡ cond (ltb end (length text.now)) (end + 1) end }
{
    if end < text.len() { end + 1 } else { end }
}

fn read_lines(text: &[u8], records: &mut [u8], told: &mut [u64])
    requires text_in_bounds { record_size * line_count text.now ≤ length records.old }
    requires text_in_bounds_2 { told_size * line_count text.now ≤ length told.old }
    ensures records { records.new ≡ overwrite (page_records text.now) records.old }
    ensures told { told.new ≡ overwrite (page_told text.now) told.old }
{
    // A line is as long as it is: the place of the next one is known behind it, and no `for` counts it.
    let mut at = 0;
    let mut line = 0;
    while at < text.len() {
        let end = line_end(text, at);
        let fen = read_fen(&text[at..end]);
        let board = fen.board;
        put_record(board, records, RECORD_SIZE * line);
        put_told(fen.number, fen.offset, told, TOLD_SIZE * line);
        line += 1;
        at = past(end, text);
    }
}

// Puts the record of each line, 68 bytes, and its answer and offset, two numbers, into the rooms, or answers 7 and writes nothing. Either way the value is
// the number of lines.
pub fn read_page(text: &[u8], records: &mut [u8], told: &mut [u64]) -> Answer
    ensures answer { result ≡ page_answer text.now (length records.old) (length told.old) }
    ensures records { records.new ≡ records_left text.now records.old (length told.old) }
    ensures told { told.new ≡ told_left text.now (length records.old) told.old }
{
    let lines = line_count(text);
    if records.len() / RECORD_SIZE < lines {
        return too_short(lines);
    }
    if told.len() / TOLD_SIZE < lines {
        return too_short(lines);
    }
    read_lines(text, records, told);
    answer::accepted(lines as u64)
}
