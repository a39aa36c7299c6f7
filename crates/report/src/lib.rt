// The evening report over a page of FENs: the page call fills the two rooms, and the figures are counted over what it left there.
#![tactic(auto)]

mod men;
mod repeats;
mod rooms;
mod sets;

ghost use Rattle.std.specs.Prelude.{◌≡◌, List, ℕ, length};
ghost use Rattle.report_text.specs.Report.{most_lines, refused_report, figures, report_answer, report_records, report_told};
ghost use Rattle.report.specs.CodeRooms.{Filled};

use answer::LOG_FULL;
use fen_reader::lines::line_count;
use fen_reader::page::read_page;
use report_text::{MOST_LINES, Report};
use rooms::Page;

fn refused(number: u64, lines: u64) -> Report
    ensures { result ≡ refused_report number lines }
{
    Report {
        number,
        lines,
        accepted: 0,
        refused: 0,
        men: [0; 12],
        repeated: 0,
    }
}

fn figures_of(page: Page) -> Report
    ensures { (ls : List (List ℕ)) → Filled ls page.entry.records.now page.entry.told.now page.entry.lines → result ≡ figures ls }
{
    let mut sums = [0u64; 12];
    let mut buckets = [0u16; MOST_LINES];
    let accepted = men::sum_lines(page, &mut sums, &mut buckets);
    let repeated = repeats::repeats(page, &buckets);
    Report {
        number: 0,
        lines: page.lines as u64,
        accepted,
        refused: page.lines as u64 - accepted,
        men: sums,
        repeated,
    }
}

// Reports on the lines of a text, whose records, answers and offsets it puts into the rooms as `read_page` does. 13 for more than 4,096 lines, then 7 with the
// number of lines; both leave the rooms as they are.
pub fn report(text: &[u8], records: &mut [u8], told: &mut [u64]) -> Report
    ensures answer { result ≡ report_answer most_lines text.now (length records.old) (length told.old) }
    ensures records { records.new ≡ report_records most_lines text.now records.old (length told.old) }
    ensures told { told.new ≡ report_told most_lines text.now (length records.old) told.old }
{
    let lines = line_count(text);
    if MOST_LINES < lines {
        return refused(LOG_FULL, 0);
    }
    let page = read_page(text, records, told);
    if page.number != 0 {
        return refused(page.number, page.value);
    }
    figures_of(Page {
        records,
        told,
        lines,
    })
}
