// Inputs, read page by page and split into lines.
ghost use Rattle.std.specs.Prelude.{◌≡◌, ◌+◌, ◌<◌, ◌≤◌, IfSome, length};

use crate::output::Output;
use crate::tell;
use fen_reader::lines::line_end;
use std::io;
use std::io::Read;

const ROOM: usize = 131_072;

#[derive(Drop)]
pub(crate) struct Pages {
    room: [u8; ROOM],
    // bytes of an unended line at the front of the room
    held: usize,
    // the line that continues did not fit the room
    long: bool,
    // an input could not be opened or read to its end
    failed: bool,
    ghost fits: { held < 131072 },
}

// The place of the first newline.
fn newline_in(text: &[u8]) -> Option<usize>
    ensures { IfSome result (λ at. at < length text.now) }
{
    let end = line_end(text, 0);
    if end < text.len() { Some(end) } else { None }
}

impl Pages {
    pub(crate) fn new() -> Pages {
        Pages {
            room: [0; ROOM],
            held: 0,
            long: false,
            failed: false,
        }
    }

    pub(crate) fn has_failed(&self) -> bool {
        self.failed
    }

    pub(crate) fn fail(&mut self) {
        self.failed = true;
    }

    // Puts every ended line of the first `end` bytes, and answers where the line that is not ended begins.
    fn put_ended(&mut self, end: usize, out: &mut Output<impl Print, impl Print>) -> usize
        requires { end ≤ 131072 }
        ensures { result ≤ end }
    {
        let mut from: usize = 0;
        if self.long {
            // the rest of that line is passed over, and reported once its end is there
            let Some(stop) = newline_in(&self.room[..end]) else {
                return end;
            };
            out.put_long();
            self.long = false;
            from = stop + 1;
        }
        from + out.put_lines(&self.room[from..end])
    }

    // One more page: `more` bytes came in behind those held. A line that fills the whole room, or continues one that did, is not held.
    fn put_page(&mut self, more: usize, out: &mut Output<impl Print, impl Print>)
        requires { self.old.held + more ≤ 131072 }
    {
        let end = self.held + more;
        let from = self.put_ended(end, out);
        let left = end - from;
        self.held = 0;
        if left == ROOM {
            self.long = true;
        }
        if !self.long {
            self.room.copy_within(from..end, 0);
            self.held = left;
        }
    }

    // A line that a failed read cut short does not count: with its end missing it would be filed as another position.
    fn stopped(
        &mut self,
        error: io::Error,
        name: &[u8],
        lines: u64,
        out: &Output<impl Print, impl Print>,
    )
        ensures { self.new.held ≡ 0 }
    {
        let is_cut = self.long || 0 < self.held;
        tell::failed(out.err, name, error);
        tell::stopped(out.err, name, lines, is_cut);
        self.held = 0;
        self.long = false;
        self.failed = true;
    }

    // The input has ended: a last line without a newline counts if it has a byte.
    fn put_last(&mut self, out: &mut Output<impl Print, impl Print>) {
        if self.long {
            out.put_long();
        } else if 0 < self.held {
            out.put_line(&self.room[..self.held]);
        }
        out.flush();
    }

    // What an input before left behind is no part of this one.
    fn begin(&mut self)
        ensures { self.new.held ≡ 0 }
    {
        self.held = 0; // no byte of this one has come
        self.long = false;
    }

    // Every line of one input. A proved loop ends, and nothing says that an input does: there are more turns than any input uses up.
    pub(crate) fn put_all(
        &mut self,
        source: &mut impl Read,
        name: &[u8],
        out: &mut Output<impl Print, impl Print>,
    ) {
        self.begin();
        let before = out.counts().lines();
        for _ in 0..u64::MAX {
            match source.read(&mut self.room[self.held..]) {
                Ok(0) => break,
                Ok(more) => {
                    let is_short = self.held + more < ROOM;
                    self.put_page(more, out);
                    // whoever feeds a slow pipe gets each answer at once
                    if is_short {
                        out.flush();
                    }
                    if !out.is_open() {
                        break;
                    }
                }
                Err(error) => {
                    let lines = out.counts().lines().wrapping_sub(before);
                    self.stopped(error, name, lines, out);
                    break;
                }
            }
        }
        self.put_last(out);
    }
}
