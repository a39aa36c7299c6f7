// The bytes of move text, and how far a token runs on.
ghost use Rattle.std.specs.Prelude.{◌≡◌};
ghost use Rattle.answer.specs.Numbers.{between};
ghost use Rattle.pgn_text.specs.Bytes.{is_white, is_digit, is_letter, starts_move, is_sign, in_move, in_run, run_length};

use answer::{both, either};
use pgn_text::Run;

fn between(low: u8, high: u8, b: u8) -> bool
    ensures { result ≡ between low high b }
{
    both(low <= b, b <= high)
}

pub(crate) fn is_white(b: u8) -> bool
    ensures { result ≡ is_white b }
{
    either(
        either(b == b' ', b == b'\t'),
        either(b == b'\r', b == b'\n'),
    )
}

pub(crate) fn is_digit(b: u8) -> bool
    ensures { result ≡ is_digit b }
{
    between(b'0', b'9', b)
}

fn is_letter(b: u8) -> bool
    ensures { result ≡ is_letter b }
{
    either(between(b'A', b'Z', b), between(b'a', b'z', b))
}

pub(crate) fn starts_move(b: u8) -> bool
    ensures { result ≡ starts_move b }
{
    either(
        between(b'a', b'h', b),
        either(
            either(b == b'N', b == b'B'),
            either(either(b == b'R', b == b'Q'), either(b == b'K', b == b'O')),
        ),
    )
}

// The six patterns become a test of one bit, without a branch; six tests in a row would not.
fn is_sign(b: u8) -> bool
    ensures { result ≡ is_sign b }
{
    match b {
        b'+' | b'#' | b'=' | b'-' | b'!' | b'?' => true,
        _ => false,
    }
}

fn in_move(b: u8) -> bool
    ensures { result ≡ in_move b }
{
    either(is_letter(b), either(is_digit(b), is_sign(b)))
}

fn in_run(run: Run, b: u8) -> bool
    ensures { result ≡ in_run run b }
{
    match run {
        Run::Digits => is_digit(b),
        Run::Periods => b == b'.',
        Run::MoveBytes => in_move(b),
        Run::InBraces => b != b'}',
        Run::InLine => b != b'\n',
    }
}

// How many bytes at the front of a text a run covers.
pub(crate) fn run_length(run: Run, s: &[u8]) -> usize
    ensures { result ≡ run_length run s.now }
{
    s.iter().take_while(|b| in_run(run, **b)).count()
}
