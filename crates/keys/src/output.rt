// The lines that wait for standard output, and the counts of them.
ghost use Rattle.std.specs.Prelude.{◌≡◌, ◌+◌, ◌≤◌, IfErr, length};

use crate::tell;
use key_line::LONGEST;
use key_line::page::key_page;
use std::io;
use std::io::ErrorKind;

// After how many lines their number is told on standard error.
const TOLD: u64 = 1_000_000;

const ROOM: usize = 65_536;

// How many texts became keys and how many were refused: a line for each.
#[derive(Clone, Copy, Default)]
pub(crate) struct Counts {
    pub(crate) accepted: u64,
    pub(crate) refused: u64,
}

impl Counts {
    pub(crate) fn lines(self) -> u64 {
        self.accepted.wrapping_add(self.refused)
    }

    // The largest multiple of a million that is not over the number of lines.
    fn told(self) -> u64 {
        let lines = self.lines();
        lines - lines % TOLD
    }

    fn add(&mut self, more: Counts) {
        self.accepted = self.accepted.wrapping_add(more.accepted);
        self.refused = self.refused.wrapping_add(more.refused);
    }

    fn take_back(&mut self, less: Counts) {
        self.accepted = self.accepted.wrapping_sub(less.accepted);
        self.refused = self.refused.wrapping_sub(less.refused);
    }
}

// A refusal begins with `!`.
fn count_of_line(line: &[u8]) -> Counts {
    if line.starts_with(b"!") { REFUSAL } else { KEY }
}

const KEY: Counts = Counts {
    accepted: 1,
    refused: 0,
};

const REFUSAL: Counts = Counts {
    accepted: 0,
    refused: 1,
};

// The lines whose newline is not among the first `done` bytes.
fn not_whole(lines: &[u8], done: usize) -> Counts {
    let whole = answer::front(lines, done).iter().rposition(|b| *b == b'\n');
    let from = match whole {
        Some(last) => last + 1,
        None => 0,
    };
    let mut counts = Counts::default();
    for line in answer::rest(lines, from).split_inclusive(|b| *b == b'\n') {
        counts.add(count_of_line(line));
    }
    counts
}

#[derive(Clone, Copy, PartialEq)]
pub(crate) enum State {
    Open,
    // it could not be written; nothing more is put or counted
    Failed,
    // .. since whoever reads standard output has gone: the run ends and says nothing
    ReaderGone,
}

// A write that failed, and how many bytes were taken before.
#[derive(Drop)]
struct Cut {
    done: usize,
    error: io::Error,
}

#[derive(Drop)]
pub(crate) struct Output<'a, R, E> {
    rt: &'a R,
    pub(crate) err: &'a E,
    room: [u8; ROOM],
    // bytes that wait at the front of the room, whole lines: fixed memory, where std's BufWriter would be on a heap
    ready: usize,
    counts: Counts,
    state: State,
    ghost fits: { ready ≤ 65536 },
}

impl<'a, R: Print, E: Print> Output<'a, R, E> {
    pub(crate) fn new(rt: &'a R, err: &'a E) -> Output<'a, R, E> {
        Output {
            rt,
            err,
            room: [0; ROOM],
            ready: 0,
            counts: Counts::default(),
            state: State::Open,
        }
    }

    pub(crate) fn counts(&self) -> Counts {
        self.counts
    }

    pub(crate) fn state(&self) -> State {
        self.state
    }

    pub(crate) fn is_open(&self) -> bool {
        self.state == State::Open
    }

    // Writes what waits: not all of it is taken only if a write failed.
    fn write_ready(&self) -> Result<(), Cut>
        ensures { IfErr result (λ cut. cut.done ≤ self.now.ready) }
    {
        let mut done: usize = 0;
        // a cursor: each write takes as many bytes as it likes
        while done < self.ready {
            match self.rt.write_some(&self.room[done..self.ready]) {
                Ok(0) => {
                    let error = io::Error::from(ErrorKind::WriteZero);
                    return Err(Cut { done, error });
                }
                Ok(n) => done += n,
                Err(error) => return Err(Cut { done, error }),
            }
        }
        Ok(())
    }

    // Writes what waits, and forgets it.
    pub(crate) fn flush(&mut self)
        ensures { self.new.ready ≡ 0 }
    {
        if self.is_open() {
            if let Err(cut) = self.write_ready() {
                self.fail(cut);
            }
        }
        self.ready = 0;
    }

    fn fail(&mut self, cut: Cut) {
        if cut.error.kind() == ErrorKind::BrokenPipe {
            self.state = State::ReaderGone;
            return;
        }
        self.state = State::Failed;
        tell::failed(self.err, b"standard output", cut.error);
        let left = not_whole(&self.room[..self.ready], cut.done);
        self.counts.take_back(left);
    }

    // Makes room for one more line. False: the output cannot be written.
    fn make_room(&mut self) -> bool {
        if ROOM - self.ready < LONGEST {
            self.flush();
        }
        self.is_open()
    }

    // `n` more bytes wait, the lines of that many texts accepted and refused.
    fn count(&mut self, n: usize, more: Counts)
        requires { self.old.ready + n ≤ 65536 }
    {
        let told = self.counts.told();
        self.ready += n;
        self.counts.add(more);
        let reached = self.counts.told();
        if reached != told {
            tell::progress(self.err, reached);
        }
    }

    // Puts every ended line of a text, and answers how many bytes they are.
    pub(crate) fn put_lines(&mut self, text: &[u8]) -> usize
        ensures { result ≤ length text.now }
    {
        let mut at: usize = 0;
        // a cursor: each page takes as many bytes as it has lines for
        while at < text.len() {
            if !self.make_room() {
                return at;
            }
            let page = key_page(&text[at..], &mut self.room[self.ready..]);
            if page.taken == 0 {
                return at;
            }
            let more = Counts {
                accepted: page.accepted,
                refused: page.refused,
            };
            self.count(page.ready, more);
            at += page.taken;
        }
        at
    }

    // A last line that no newline ends.
    pub(crate) fn put_line(&mut self, text: &[u8]) {
        if !self.make_room() {
            return;
        }
        let room = &mut self.room[self.ready..];
        let n = taken(key_line::key_line(text, room), room.len());
        let more = count_of_line(room);
        self.count(n, more);
    }

    // A line that did not fit the input's room.
    pub(crate) fn put_long(&mut self) {
        if !self.make_room() {
            return;
        }
        let room = &mut self.room[self.ready..];
        let n = taken(answer::write_text(b"! long\n", room), room.len());
        self.count(n, REFUSAL);
    }
}

// How many bytes a line took: a writer answers no more than the room, or 7.
fn taken(answer: answer::Answer, room: usize) -> usize
    ensures { result ≤ room }
{
    if answer.value <= room as u64 {
        answer.value as usize
    } else {
        0
    }
}
