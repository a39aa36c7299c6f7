// The two rooms of a page: the 68 bytes of each line's record, and each line's answer and offset.
ghost use Rattle.std.specs.Prelude.{◌≡◌, ◌<◌};
ghost use Rattle.report.specs.CodeRooms.{Rooms, record_at};

use board_builder::RECORD_SIZE;

#[derive(Clone, Copy)]
pub struct Page<'a> {
    pub records: &'a [u8],
    pub told: &'a [u64],
    pub lines: usize,
    ghost rooms: { Rooms records.now told.now lines },
}

impl<'a> Page<'a> {
    pub(crate) fn record_at(self, k: usize) -> &'a [u8]
        requires { k < self.lines }
        ensures { result.now ≡ record_at self.entry.records.now k }
    {
        answer::front(answer::rest(self.records, RECORD_SIZE * k), RECORD_SIZE)
    }
}
