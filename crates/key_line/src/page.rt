// From one room of bytes to its output: the lines in it that are ended, each answered by a line.
ghost use Rattle.std.specs.Prelude.{◌≡◌, ◌≤◌, length};
ghost use Rattle.key_line.specs.KeyPage.{key_page, key_room};

use crate::{LONGEST, put_line};

// How many bytes of the text were taken and of the room are ready, and how many of the lines were accepted and refused.
#[derive(Clone, Copy)]
pub struct Paged {
    pub taken: usize,
    pub ready: usize,
    pub accepted: u64,
    pub refused: u64,
}

// Puts the line of each ended line to the front of `out`, while there is room for the longest.
pub fn key_page(text: &[u8], out: &mut [u8]) -> Paged
    ensures answer { result ≡ key_page text.now (length out.old) }
    ensures bytes { out.new ≡ key_room text.now out.old }
    ensures within { (result.taken ≤ length text.now) × (result.ready ≤ length out.old) }
{
    let mut taken = 0;
    let mut ready = 0;
    let mut accepted = 0;
    let mut refused = 0;
    // A line ends where it was found to, and what it puts out has a length of its own: two places that no `for` counts.
    while LONGEST <= out.len() - ready {
        let end = fen_reader::lines::line_end(text, taken);
        if text.len() <= end {
            return Paged {
                taken,
                ready,
                accepted,
                refused,
            };
        }
        let put = put_line(&text[taken..end], out, ready);
        ready = put.ready;
        accepted += u64::from(put.accepted);
        refused += u64::from(!put.accepted);
        taken = end + 1;
    }
    Paged {
        taken,
        ready,
        accepted,
        refused,
    }
}
