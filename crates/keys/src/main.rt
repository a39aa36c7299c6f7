// keys: FEN texts, one per line, from standard input or from files; for each line its key, or `! N OFFSET` with the number of the
// refusal and where the line is wrong. `--help` says more.
#![tactic(auto)]

mod help;
mod input;
mod options;
mod output;
mod tell;

use input::Pages;
use options::{Asked, LONGEST_WORD, Words};
use output::{Output, State};
use std::process::ExitCode;
use std::rt::{Env, Files};
use std::{fs, io, str};

// The system's numbers for a word that is too long and for one that is no text.
const TOO_LONG: i32 = 36;

const NO_TEXT: i32 = 84;

// The status of a program that ended since whoever reads its output has gone, as a shell gives it.
const READER_GONE: u8 = 141;

// Opens a file for reading. The names that can be opened are text.
fn open<R: Files>(rt: &R, path: &[u8]) -> io::Result<R::File> {
    match str::from_utf8(path) {
        Ok(name) => fs::open(rt, name),
        Err(_) => Err(io::Error::from_raw_os_error(NO_TEXT)),
    }
}

fn put_standard_input(
    rt: &(impl Input + Print),
    pages: &mut Pages,
    out: &mut Output<impl Print, impl Print>,
) {
    let mut source = rt.reader();
    pages.put_all(&mut source, b"standard input", out);
}

// The file that a word names. One that cannot be opened is named on standard error, and the run goes on.
fn put_file(
    rt: &(impl Files + Input + Print),
    path: &[u8],
    pages: &mut Pages,
    out: &mut Output<impl Print, impl Print>,
) {
    if options::is_standard_input(path) {
        return put_standard_input(rt, pages, out);
    }
    match open(rt, path) {
        Ok(mut file) => pages.put_all(&mut file, path, out),
        Err(e) => {
            tell::failed(out.err, path, e);
            pages.fail();
        }
    }
}

// The file that argument `i` names.
fn put_argument(
    rt: &(impl Env + Files + Input + Print),
    i: usize,
    pages: &mut Pages,
    out: &mut Output<impl Print, impl Print>,
) {
    let mut path = [0u8; LONGEST_WORD];
    match rt.arg(i, &mut path) {
        Ok(n) => put_file(rt, &path[..n], pages, out),
        Err(_) => {
            let error = io::Error::from_raw_os_error(TOO_LONG);
            tell::failed(out.err, b"argument", error);
            pages.fail();
        }
    }
}

// The files that are named, or standard input if none is; the word that ends the options names no file.
fn put_all(
    rt: &(impl Env + Files + Input + Print),
    words: Words,
    pages: &mut Pages,
    out: &mut Output<impl Print, impl Print>,
) {
    if words.names_none() {
        return put_standard_input(rt, pages, out);
    }
    for i in 1..words.count {
        if out.is_open() && i != words.end {
            put_argument(rt, i, pages, out);
        }
    }
}

fn put_keys(rt: &(impl Env + Files + Input + Print), err: &impl Print, words: Words) -> ExitCode {
    let mut pages = Pages::new();
    let mut out = Output::new(rt, err);
    put_all(rt, words, &mut pages, &mut out);
    out.flush();
    if out.state() == State::ReaderGone {
        return ExitCode::from(READER_GONE);
    }
    tell::end(err, out.counts(), pages.has_failed(), !out.is_open());
    ExitCode::SUCCESS
}

fn refuse(rt: &impl Env, err: &impl Print, i: usize) {
    let mut word = [0u8; LONGEST_WORD];
    let n = options::read_word(rt, i, &mut word);
    tell::unknown(err, &word[..n]);
}

fn main(rt: HostRuntime) -> ExitCode {
    let err = rt.stderr();
    let words = Words::read(&rt);
    match words.asked(&rt) {
        None => return put_keys(&rt, &err, words),
        Some(Asked::Help) => help::tell(&rt),
        Some(Asked::Version) => help::tell_version(&rt),
        Some(Asked::Unknown(i)) => refuse(&rt, &err, i),
    }
    ExitCode::SUCCESS
}
