// Answers as document 01 numbers them, and bytes and texts for the crates above: written to a room, compared, taken apart.
#![tactic(auto)]

ghost use Rattle.std.specs.Prelude.{◌≡◌, length};
ghost use Rattle.answer.specs.Answer.{accepted, refused, read_as, fault_at, items_answer, items_written, write_answer, write_bytes};
ghost use Rattle.answer.specs.Numbers.{any_over, all_at_most, number_at, same, either, both};
ghost use Rattle.answer.specs.Parts.{front_of, rest_of};

// What a call answers: its number in document 01's table, and the value that comes with it. A host's struct (C interface), and so is each struct of a crate
// above that is `repr(C)`: a number, or a flag of 0 and 1, stands in them beside what it tells of.
#[repr(C)]
#[derive(Clone, Copy)]
pub struct Answer {
    pub number: u64,
    pub value: u64,
}

// The same for a text, with the offset of what is wrong in it, 0 if nothing is.
#[repr(C)]
#[derive(Clone, Copy)]
pub struct Placed {
    pub number: u64,
    pub value: u64,
    pub offset: u64,
}

// Document 01's answer numbers. They are no enum: a host is given them as they are, in the structs of docs/papers/HOST-ABI.md (C interface).

pub const ACCEPTED: u64 = 0;

pub const INVALID_SQUARE: u64 = 2;

pub const INVALID_UCI_MOVE: u64 = 3;

pub const INVALID_SAN_MOVE: u64 = 4;

pub const OUT_OF_RANGE: u64 = 5;

pub const BAD_LIST: u64 = 6;

pub const OUTPUT_TOO_SHORT: u64 = 7;

pub const NO_NAME: u64 = 8;

pub const NOT_GOOD: u64 = 9;

pub const GAME_OVER: u64 = 10;

pub const NOT_LISTED: u64 = 11;

pub const WRONG_SIDE: u64 = 12;

pub const LOG_FULL: u64 = 13;

pub const NO_OFFER: u64 = 14;

pub const NO_CLAIM: u64 = 15;

pub const PART_TOO_SHORT: u64 = 16;

pub const BAD_ROLL: u64 = 17;

pub const TOO_FEW_TOKENS: u64 = 18;

pub const BAD_PLACEMENT: u64 = 19;

pub const BAD_SIDE: u64 = 20;

pub const LEFT_OPEN: u64 = 21;

pub const TOO_DEEP: u64 = 22;

pub const UNKNOWN_TOKEN: u64 = 23;

pub const WRONG_RECORD: u64 = 24;

pub const BAD_COUNTER: u64 = 25;

pub fn accepted(value: u64) -> Answer
    ensures { result ≡ accepted value }
{
    Answer {
        number: ACCEPTED,
        value,
    }
}

pub fn accepted_byte(value: u8) -> Answer
    ensures { result ≡ accepted value }
{
    accepted(value as u64)
}

pub fn refused(number: u64) -> Answer
    ensures { result ≡ refused number }
{
    Answer { number, value: 0 }
}

pub fn read_as(value: u64) -> Placed
    ensures { result ≡ read_as value }
{
    Placed {
        number: ACCEPTED,
        value,
        offset: 0,
    }
}

pub fn fault_at(number: u64, offset: u64) -> Placed
    ensures { result ≡ fault_at number offset }
{
    Placed {
        number,
        value: 0,
        offset,
    }
}

// Copies a list to the front of `out`, or answers 7 with the list's length and writes nothing.
pub fn write_items<T: Copy>(items: &[T], out: &mut [T]) -> Answer
    ensures answer { result ≡ items_answer (length items.now) (length out.old) }
    ensures items { out.new ≡ items_written items.now out.old }
{
    let needed = items.len();
    if out.len() < needed {
        return Answer {
            number: OUTPUT_TOO_SHORT,
            value: needed as u64,
        };
    }
    out[..needed].copy_from_slice(items);
    accepted(needed as u64)
}

// The same for a text, byte by byte: the few bytes of a text whose length a caller knows are stored at once, where `write_items` puts them together first.
pub fn write_text(text: &[u8], out: &mut [u8]) -> Answer
    ensures answer { result ≡ write_answer 0 text.now (length out.old) }
    ensures bytes { out.new ≡ write_bytes 0 text.now out.old }
{
    if out.len() < text.len() {
        return Answer {
            number: OUTPUT_TOO_SHORT,
            value: text.len() as u64,
        };
    }
    for (i, b) in text.iter().enumerate() {
        out[i] = *b;
    }
    accepted(text.len() as u64)
}

// The first `n` bytes, or all there are.
pub fn front(s: &[u8], n: usize) -> &[u8]
    ensures { result.now ≡ front_of s.now n }
{
    if n <= s.len() { &s[..n] } else { s }
}

// What is left after `n` bytes.
pub fn rest(s: &[u8], n: usize) -> &[u8]
    ensures { result.now ≡ rest_of s.now n }
{
    if n <= s.len() { &s[n..] } else { &s[..0] }
}

// Differences between two texts of one length are gathered without a branch, so that many bytes are compared at a time.
pub fn same_bytes(a: &[u8], b: &[u8]) -> bool
    ensures { result ≡ same a.now b.now }
{
    if a.len() != b.len() {
        return false;
    }
    let mut differ: u8 = 0;
    for (i, x) in a.iter().enumerate() {
        differ |= *x ^ b[i];
    }
    differ == 0
}

// The byte at a place, 0 past the end.
pub fn byte_at(s: &[u8], i: usize) -> u8
    ensures { result ≡ number_at s.now i }
{
    if i < s.len() { s[i] } else { 0 }
}

// Both operands are known when it is called: no branch, where `||` has one.
pub fn either(a: bool, b: bool) -> bool
    ensures { result ≡ either a b }
{
    if a { true } else { b }
}

// The same for `&&`.
pub fn both(a: bool, b: bool) -> bool
    ensures { result ≡ both a b }
{
    if a { b } else { false }
}

// Whether something in a list is over a bound, gathered without a branch, so that many are compared at a time.
pub fn any_over<T: PartialOrd>(s: &[T], most: &T) -> bool
    ensures { result ≡ any_over T.partial_cmp most.now s.now }
{
    let mut over = false;
    for x in s {
        over |= x > most;
    }
    over
}

// Whether no byte is over a bound.
pub fn all_at_most(s: &[u8], most: u8) -> bool
    ensures { result ≡ all_at_most most s.now }
{
    !any_over(s, &most)
}
