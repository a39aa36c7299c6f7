// A number in decimal, one text per number: for every writer of numbers.
#![tactic(auto)]

ghost use Rattle.std.specs.Prelude.{◌≡◌, length};
ghost use Rattle.answer.specs.Answer.{write_answer, write_bytes};
ghost use Rattle.decimal.specs.Decimal.{decimal};

use answer::Answer;

// A number of 64 bits has at most this many digits.
const MOST_DIGITS: usize = 20;

// Writes a number in decimal to the front of `out`, or answers 7 with the text's length.
pub fn to_string(number: u64, out: &mut [u8]) -> Answer
    ensures answer { result ≡ write_answer 0 (decimal number) (length out.old) }
    ensures bytes { out.new ≡ write_bytes 0 (decimal number) out.old }
{
    let mut text = [0u8; MOST_DIGITS];
    let mut at = MOST_DIGITS - 1;
    let mut left = number;
    // It ends with the number, not at an index: a `for` over places would have to stop at the first digit.
    while 10 <= left {
        text[at] = b'0' + (left % 10) as u8;
        left /= 10;
        at -= 1;
    }
    text[at] = b'0' + left as u8;
    answer::write_text(&text[at..], out)
}
