// What is said on standard error, `err`. Every message begins with `keys: `, and the form of the last one is fixed: scripts read it.
// What cannot be written is passed over.
use crate::output::Counts;
use std::io::Write;
use std::{fmt, io, str};

// "1 line", "2 lines"
#[derive(Drop)]
struct Lines(u64);

impl fmt::Display for Lines {
    fn fmt<W: fmt::Write>(&self, f: &mut fmt::Formatter<W>) -> fmt::Result {
        let s = if self.0 == 1 { "" } else { "s" };
        write!(f, "{} line{s}", self.0)
    }
}

// The words of an error, without the system's number that stands behind them.
fn words(text: &str) -> &str {
    match text.split_once(" (os error ") {
        Some((words, _)) => words,
        None => text,
    }
}

fn say_error(err: &impl Print, error: io::Error) {
    let mut room = [0u8; 256];
    let all = room.len();
    let mut left: &mut [u8] = &mut room;
    let _ = write!(left, "{error}");
    let n = all.saturating_sub(left.len());
    if let Ok(text) = str::from_utf8(&room[..n]) {
        let _ = err.print(words(text));
    }
}

// A file's name need not be text, and goes out as it is.
fn say_name(err: &impl Print, name: &[u8]) {
    let _ = err.print("keys: ");
    let _ = err.write_all(name);
    let _ = err.print(": ");
}

// What the system says about a call that has failed.
pub(crate) fn failed(err: &impl Print, what: &[u8], error: io::Error) {
    say_name(err, what);
    say_error(err, error);
    let _ = err.print("\n");
}

pub(crate) fn progress(err: &impl Print, lines: u64) {
    let _ = print!(err; "keys: {} so far\n", Lines(lines));
}

pub(crate) fn unknown(err: &impl Print, option: &[u8]) {
    let _ = err.print("keys: unknown option ");
    let _ = err.write_all(option);
    let _ = err.print("; see keys --help\n");
}

// An input that could not be read to its end.
pub(crate) fn stopped(err: &impl Print, name: &[u8], lines: u64, is_cut: bool) {
    let cut = if is_cut {
        "; a line was cut and is dropped"
    } else {
        ""
    };
    say_name(err, name);
    let _ = print!(err; "stopped after {}{cut}\n", Lines(lines));
}

pub(crate) fn end(err: &impl Print, counts: Counts, input_failed: bool, output_failed: bool) {
    let input = if input_failed {
        "; input incomplete"
    } else {
        ""
    };
    let output = if output_failed {
        "; output incomplete: these lines were written whole"
    } else {
        ""
    };
    let lines = Lines(counts.lines());
    let _ = print!(err;
        "keys: {lines}, {} accepted, {} refused{input}{output}\n",
        counts.accepted, counts.refused
    );
}
