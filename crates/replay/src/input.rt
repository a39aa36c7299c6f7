// Standard input, line by line.
ghost use Rattle.std.specs.Prelude.{◌<◌, ◌≤◌, IfSome, length};

use std::io::Read;

const BLOCK: usize = 65_536;

#[derive(Drop)]
pub(crate) struct Input<S> {
    source: S,
    // the bytes from `at` to `end` are still to be read; std's BufReader would keep them on a heap, and there is none
    block: [u8; BLOCK],
    at: usize,
    end: usize,
    ghost within: { (at ≤ end) × (end ≤ 65536) },
}

// Reads until the block is full, the input ends or a read fails, and answers how many bytes came.
fn read_full(source: &mut impl Read, block: &mut [u8]) -> usize
    ensures { result ≤ length block.old }
{
    let mut done: usize = 0;
    // a cursor: each read brings as many bytes as it likes
    while done < block.len() {
        let more = source.read(&mut block[done..]).unwrap_or(0);
        if more == 0 {
            return done;
        }
        done += more;
    }
    done
}

impl<S: Read> Input<S> {
    pub(crate) fn new(source: S) -> Input<S> {
        Input {
            source,
            block: [0; BLOCK],
            at: 0,
            end: 0,
        }
    }

    fn next_byte(&mut self) -> Option<u8> {
        if self.at == self.end {
            self.at = 0;
            self.end = read_full(&mut self.source, &mut self.block);
        }
        if self.at < self.end {
            let b = self.block[self.at];
            self.at += 1;
            Some(b)
        } else {
            None
        }
    }

    // Reads up to the next newline into the front of `line`. None: the input ends before it, or `line` is full.
    pub(crate) fn read_line(&mut self, line: &mut [u8]) -> Option<usize>
        ensures { IfSome result (λ n. n ≤ length line.old) }
    {
        for (n, place) in line.iter_mut().enumerate() {
            let b = self.next_byte()?;
            if b == b'\n' {
                return Some(n);
            }
            *place = b;
        }
        None
    }
}
