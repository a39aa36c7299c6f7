// Men counted on sets of squares, 64 bits each, one per kind; and the bucket that a record is put into.
ghost use Rattle.std.specs.Prelude.{◌≡◌, true, cond, List, ℕ, ◌*◌, ◌≤◌, ◌<◌, length, take, get_or, set, replicate};
ghost use Rattle.std.specs.Int.Count.{ones};
ghost use Rattle.answer.specs.Numbers.{all_at_most};
ghost use Rattle.board_builder.specs.BoardBuilder.{squares, record_size};
ghost use Rattle.report_text.specs.Report.{most_lines, one};
ghost use Rattle.report.specs.CodeSets.{kind_sets, Added, mixed, plane_bucket, bucket_of};
ghost use Rattle.report.specs.CodeRooms.{counts_at, record_at, squares_at, counted_below, AddedIf, MenSums, Bucketed};

use crate::rooms::Page;
use crate::sets;
use crate::sets::{KINDS, Planes};
use report_text::MOST_LINES;

const SQUARES: usize = 64;

// How many buckets records are put into: a prime, so that each set has a say in which.
pub(crate) const BUCKETS: usize = 4093;

fn ones_of(set: u64) -> u64
    ensures value { result ≡ ones set }
    ensures few { result ≤ squares }
{
    u64::from(set.count_ones())
}

fn add_men(sets: &[u64; KINDS], men: &mut [u64; KINDS])
    requires { (k : ℕ) → get_or men.old k 0 ≤ squares * most_lines }
    ensures { (xs : List ℕ) → sets.now ≡ kind_sets xs → Added xs men.old men.new }
{
    for (kind, set) in sets.iter().enumerate() {
        men[kind] += ones_of(*set);
    }
}

fn mix(h: u64, set: u64) -> u64
    ensures { result ≡ mixed h set }
{
    ((h << 7) ^ (h >> 57)) ^ set
}

// Which bucket a record is put into does not matter, as long as equal ones are put into one.
fn bucket(planes: Planes, seed: u64) -> u16
    ensures { result ≡ plane_bucket seed planes }
{
    let h = mix(
        mix(mix(mix(seed, planes.one), planes.two), planes.four),
        planes.eight,
    );
    (h % (BUCKETS as u64)) as u16
}

// What a record adds to the men, and its bucket.
fn note_record(numbers: &[u8], men: &mut [u64; KINDS]) -> u16
    requires numbers_len { length numbers.now ≡ record_size }
    requires numbers_value { all_at_most 12 (take squares numbers.now) ≡ true }
    requires by_index { (k : ℕ) → get_or men.old k 0 ≤ squares * most_lines }
    ensures bucket { result ≡ bucket_of numbers.now }
    ensures men { Added (take squares numbers.now) men.old men.new }
{
    let planes = sets::planes_of(answer::front(numbers, SQUARES));
    let kinds = sets::sets_of(planes);
    add_men(&kinds, men);
    bucket(planes, sets::four_bytes(numbers, SQUARES))
}

// Line k: 1 if it counts, and then its men and its bucket are noted.
fn note_line(page: Page, k: usize, men: &mut [u64; KINDS], buckets: &mut [u16; MOST_LINES]) -> u64
    requires k_lt_lines { k < page.lines }
    requires by_index { (j : ℕ) → get_or men.old j 0 ≤ squares * most_lines }
    ensures counted { result ≡ one (counts_at page.entry.told.now k) }
    ensures men { AddedIf (counts_at page.entry.told.now k) (squares_at page.entry.records.now k) men.old men.new }
    ensures buckets { buckets.new
        ≡ cond (counts_at page.entry.told.now k) (set buckets.old k (bucket_of (record_at page.entry.records.now k))) buckets.old }
{
    if page.told[k * 2] != 0 {
        return 0;
    }
    buckets[k] = note_record(page.record_at(k), men);
    1
}

// How many lines are accepted; their men are added up, and their buckets noted.
pub(crate) fn sum_lines(page: Page, men: &mut [u64; KINDS], buckets: &mut [u16; MOST_LINES]) -> u64
    requires { men.old ≡ replicate 12 0 }
    ensures counted { result ≡ counted_below page.entry.told.now page.entry.lines }
    ensures men { MenSums page.entry.records.now page.entry.told.now men.new page.entry.lines }
    ensures buckets { Bucketed page.entry.records.now page.entry.told.now buckets.new page.entry.lines }
{
    let mut counted = 0;
    for line in 0..page.lines {
        counted += note_line(page, line, men, buckets);
    }
    counted
}
