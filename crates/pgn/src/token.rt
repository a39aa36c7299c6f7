// What stands at a place of move text: decided by the byte there and what follows it.
ghost use Rattle.std.specs.Prelude.{◌≡◌, ◌<◌, length};
ghost use Rattle.pgn_text.specs.Token.{is_result, number, glyph, brace_comment, line_comment, token, token_at};

use crate::bytes::{is_digit, is_white, run_length, starts_move};
use answer::{either, rest};
use pgn_text::{Run, Token};

fn is_result(b: u8, after: &[u8]) -> bool
    ensures { result ≡ is_result b after.now }
{
    if b == b'*' {
        return true;
    }
    if b == b'0' {
        return after.starts_with(b"-1");
    }
    if b == b'1' {
        return either(after.starts_with(b"-0"), after.starts_with(b"/2-1/2"));
    }
    false
}

fn number(after: &[u8]) -> Token
    ensures { result ≡ number after.now }
{
    let digits = run_length(Run::Digits, after);
    let periods = run_length(Run::Periods, rest(after, digits));
    Token::Passed(digits + periods)
}

fn glyph(after: &[u8]) -> Token
    ensures { result ≡ glyph after.now }
{
    let digits = run_length(Run::Digits, after);
    if digits == 0 {
        return Token::Unknown;
    }
    Token::Passed(digits)
}

fn brace_comment(after: &[u8]) -> Token
    ensures { result ≡ brace_comment after.now }
{
    let inside = run_length(Run::InBraces, after);
    if inside < after.len() {
        return Token::Passed(inside + 1);
    }
    Token::LeftOpen
}

fn line_comment(after: &[u8]) -> Token
    ensures { result ≡ line_comment after.now }
{
    let inside = run_length(Run::InLine, after);
    if inside < after.len() {
        return Token::Passed(inside + 1);
    }
    Token::Passed(inside)
}

fn token(b: u8, after: &[u8]) -> Token
    ensures { result ≡ token b after.now }
{
    if is_white(b) {
        return Token::Passed(0);
    }
    if starts_move(b) {
        return Token::Move(run_length(Run::MoveBytes, after));
    }
    if b == b'{' {
        return brace_comment(after);
    }
    if b == b';' {
        return line_comment(after);
    }
    if b == b'$' {
        return glyph(after);
    }
    if b == b'(' {
        return Token::Opening;
    }
    if b == b')' {
        return Token::Closing;
    }
    if is_result(b, after) {
        return Token::Result;
    }
    if is_digit(b) {
        return number(after);
    }
    Token::Unknown
}

pub(crate) fn token_at(s: &[u8], at: usize) -> Token
    requires { at < length s.now }
    ensures { result ≡ token_at s.now at }
{
    token(s[at], rest(s, at + 1))
}
