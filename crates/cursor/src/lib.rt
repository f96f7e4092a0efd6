// Pages of frames from any offset of a trace, into a lent table: cursor.rs. With the proof that pages of an unbroken trace lose nothing.
#![tactic(auto)]

ghost use Rattle.std.specs.Prelude.{◌≡◌, ◌≤◌, length, drop, ◌++◌, None};
ghost use Rattle.record.specs.Record.{plausible};
ghost use Rattle.paging.specs.Page.{page_at};
ghost use Rattle.steps.specs.Step.{Sound, rows_of};
ghost use Rattle.cursor.specs.Table.{Answered, blanks};

use layout::{Readable, Trace};
use paging::{Page, PageError};
use rows::Row;
use steps::Place;

// A page with a table of its own.
#[derive(Clone, Copy)]
pub struct Table {
    pub page: Result<Page, PageError>,
    pub rows: [Row; 600],
}

// Writes n rows from a place on into the table, from its first on.
fn fill(trace: Readable, table: &mut [Row], place: Place, n: usize)
    requires sound { Sound place }
    requires room { n ≤ length table.old }
    ensures { table.new ≡ rows_of plausible trace.entry.kinds.now trace.entry.bytes.now place n ++ drop n table.old }
{
    let mut at = place;
    for row in &mut table[..n] {
        let step = steps::step_within(trace, at).unwrap();
        *row = step.row.unwrap_or_default();
        at = step.next;
    }
}

// A page from any offset, of at least `count` rows where there are so many, into a lent table. Rows past those written, and every
// row on a refusal, are as they were.
pub fn frames_at(
    trace: Trace,
    offset: usize,
    count: usize,
    table: &mut [Row],
) -> Result<Page, PageError>
    ensures { Answered (page_at plausible trace.entry.kinds.now trace.entry.bytes.now None offset count (length table.old)) result table.old table.new }
{
    let trace = trace.readable()?;
    let plan = paging::plan_from(trace, offset, count, table.len());
    fill(trace, table, plan.place, plan.rows);
    plan.page
}

// A page into a table of 600 rows of its own, which is handed back by value: whoever calls it lends nothing.
pub fn frames_table(trace: Trace, offset: usize, count: usize) -> Table
    ensures { Answered (page_at plausible trace.entry.kinds.now trace.entry.bytes.now None offset count 600) result.page blanks result.rows }
{
    let mut rows = [Row::default(); 600];
    let page = frames_at(trace, offset, count, &mut rows);
    Table { page, rows }
}
