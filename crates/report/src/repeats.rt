// Repeats: each accepted line that is new is linked in front of the new ones of its bucket, so that a line is compared with those alone.
ghost use Rattle.std.specs.Prelude.{◌≡◌, Bool, ◌&&◌, ℕ, ◌+◌, ◌≤◌, ◌<◌, length};
ghost use Rattle.report_text.specs.Report.{one};
ghost use Rattle.report_text.specs.Repeats.{found_below, repeats_below};
ghost use Rattle.report.specs.CodeRooms.{counts_at, alike_in, Bucketed};
ghost use Rattle.report.specs.CodeChains.{Falling, Chained, Linked};

use crate::men::BUCKETS;
use crate::rooms::Page;
use report_text::MOST_LINES;

fn same_record(page: Page, j: usize, k: usize) -> bool
    requires j_lt_lines { j < page.lines }
    requires k_lt_lines { k < page.lines }
    ensures { result ≡ alike_in page.entry.records.now j k }
{
    answer::same_bytes(page.record_at(j), page.record_at(k))
}

// Whether an earlier line of its bucket is like line i. A link is a line's number + 1, and 0 is the end: each leads to an earlier line.
fn earlier(page: Page, next: &[u16], from: u16, i: usize) -> bool
    requires i_lt_lines { i < page.lines }
    requires i_in_bounds { i ≤ length next.now }
    requires from_le_i { from ≤ i }
    requires falling { Falling next.now }
    ensures { (counts : ℕ → Bool) (bucket : ℕ → ℕ)
        → Chained counts (alike_in page.entry.records.now) bucket next.now from i → result ≡ found_below counts (alike_in page.entry.records.now) i i }
{
    // The walk goes from link to link, so that no `for` says it.
    let mut link = from as usize;
    while 0 < link {
        let line = link - 1;
        if same_record(page, line, i) {
            return true;
        }
        link = next[line] as usize;
    }
    false
}

// Line i: 1 if it is accepted and like an earlier one that is; if there is none, it is linked in front of its bucket's.
fn link_line(
    page: Page,
    i: usize,
    buckets: &[u16; MOST_LINES],
    heads: &mut [u16; BUCKETS],
    next: &mut [u16; MOST_LINES],
) -> u64
    requires i_lt_lines { i < page.lines }
    requires bucketed { Bucketed page.records.now page.told.now buckets.now (i + 1) }
    requires linked { Linked page.records.now page.told.now buckets.now heads.old next.old i }
    ensures repeat { result ≡ one (counts_at page.entry.told.now i && found_below (counts_at page.entry.told.now) (alike_in page.entry.records.now) i i) }
    ensures links { Linked page.entry.records.now page.entry.told.now buckets.now heads.new next.new (i + 1) }
{
    if page.told[2 * i] != 0 {
        return 0;
    }
    let bucket = buckets[i] as usize;
    let from = heads[bucket];
    if earlier(page, next, from, i) {
        return 1;
    }
    next[i] = from;
    heads[bucket] = (i + 1) as u16;
    0
}

fn link_lines(
    page: Page,
    buckets: &[u16; MOST_LINES],
    heads: &mut [u16; BUCKETS],
    next: &mut [u16; MOST_LINES],
) -> u64
    requires bucketed { Bucketed page.records.now page.told.now buckets.now page.lines }
    requires linked { Linked page.records.now page.told.now buckets.now heads.old next.old 0 }
    ensures { result ≡ repeats_below (counts_at page.entry.told.now) (alike_in page.entry.records.now) page.entry.lines }
{
    let mut repeated = 0;
    for line in 0..page.lines {
        repeated += link_line(page, line, buckets, heads, next);
    }
    repeated
}

// How many accepted lines have the record of an earlier accepted one, given each one's bucket.
pub(crate) fn repeats(page: Page, buckets: &[u16; MOST_LINES]) -> u64
    requires { Bucketed page.records.now page.told.now buckets.now page.lines }
    ensures { result ≡ repeats_below (counts_at page.entry.told.now) (alike_in page.entry.records.now) page.entry.lines }
{
    let mut heads = [0u16; BUCKETS];
    let mut next = [0u16; MOST_LINES];
    link_lines(page, buckets, &mut heads, &mut next)
}
