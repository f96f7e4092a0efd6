// A page planned, by value: its answer, and from which place how many rows are to be written. `cursor` writes them into a lent table.
#![tactic(auto)]

ghost use Rattle.std.specs.Prelude.{◌≡◌, ◌≤◌, length, None};
ghost use Rattle.record.specs.Record.{plausible, next_at};
ghost use Rattle.resync.specs.Search.{search_refusal};
ghost use Rattle.rows.specs.Rows.{rows_at};
ghost use Rattle.paging.specs.Page.{taken, lent_to, page_at, page_refusal, told_page};
ghost use Rattle.steps.specs.Step.{start_place};
ghost use Rattle.paging.specs.Plan.{Planned};
ghost use Rattle.paging.specs.declared.PageError.TheVariants as Why;

use layout::{Readable, Refusal, Trace, TraceTooLong};
use resync::{DEFAULT_WINDOW, SearchError};
use steps::{Place, ValidRecord};

// A page: where it started, how many rows it wrote, and where the next one goes on, if there is more.
#[derive(Clone, Copy, Debug, PartialEq, Eq)]
pub struct Page {
    pub start: usize,
    pub size: usize,
    pub next: Option<usize>,
}

// Why there is none: the trace is over the limit, the search's window passes the largest offset, or the rows outnumber the table.
#[derive(Clone, Copy, Debug, PartialEq, Eq)]
pub enum PageError {
    TraceTooLong,
    WindowTooLong,
    TableTooShort,
}

impl Refusal for PageError {
    ghost number = { page_refusal };

    fn number(self) -> u32 {
        match self {
            PageError::TraceTooLong => 1,
            PageError::WindowTooLong => 5,
            PageError::TableTooShort => 7,
        }
    }
}

impl From<TraceTooLong> for PageError {
    ghost from_gives = { λ _ e. e ≡ Why.TraceTooLong };

    fn from(_refusal: TraceTooLong) -> Self {
        PageError::TraceTooLong
    }
}

impl From<SearchError> for PageError {
    ghost from_gives = { λ search e. page_refusal e ≡ search_refusal search };

    fn from(refusal: SearchError) -> Self {
        match refusal {
            SearchError::TraceTooLong => PageError::TraceTooLong,
            SearchError::WindowTooLong => PageError::WindowTooLong,
        }
    }
}

// The rows of the records that a page takes, and the end of the last.
#[derive(Clone, Copy)]
struct Counted {
    rows: usize,
    end: usize,
}

// A page's answer, and from which place how many rows are to be written.
#[derive(Clone, Copy, Debug, PartialEq, Eq)]
pub struct Plan {
    pub page: Result<Page, PageError>,
    pub place: Place,
    pub rows: usize,
}

// Counts the rows of the records that a page takes: whole records, until there are `count` rows or no valid record comes.
fn count_rows(trace: Readable, start: usize, count: usize) -> Counted
    requires { start ≤ length trace.bytes.now }
    ensures { let kinds = trace.entry.kinds.now in let s = trace.entry.bytes.now in
        let t = taken (next_at plausible kinds s) (rows_at kinds s) (length s) start count in (result.rows ≡ length t.rows) × (result.end ≡ t.end) }
{
    let mut at = start;
    let mut total = 0;
    while total < count {
        let Some(ValidRecord { header, payload }) = steps::valid_record(trace, at) else {
            break;
        };
        total += rows::frame_count(payload, header.kind, header.is_outcome);
        at = header.next_offset;
    }
    Counted {
        rows: total,
        end: at,
    }
}

// The page that starts at a place. Its rows are counted, and fit the table's room, or it is refused.
fn page_of(trace: Readable, start: usize, count: usize, room: usize) -> Result<Page, PageError>
    requires { start ≤ length trace.bytes.now }
    ensures { let kinds = trace.entry.kinds.now in let s = trace.entry.bytes.now in
        told_page result ≡ (lent_to (length s) None room count start (taken (next_at plausible kinds s) (rows_at kinds s) (length s) start count)).told }
{
    let counted = count_rows(trace, start, count);
    if room < counted.rows {
        return Err(PageError::TableTooShort);
    }
    let is_more = (0 < count) & (counted.end < trace.bytes.len());
    Ok(Page {
        start,
        size: counted.rows,
        next: is_more.then_some(counted.end),
    })
}

// A page: it starts at the first boundary from its offset on.
fn page_at(trace: Readable, offset: usize, count: usize, room: usize) -> Result<Page, PageError>
    ensures { told_page result ≡ (page_at plausible trace.entry.kinds.now trace.entry.bytes.now None offset count room).told }
{
    let Some(start) = resync::search_from(trace, offset, DEFAULT_WINDOW)?.offset else {
        return Ok(Page {
            start: offset,
            size: 0,
            next: None,
        });
    };
    page_of(trace, start, count, room)
}

// A page's answer, with its rows to be written: as many as its size, from the first place of the record where it starts.
fn plan_of(page: Result<Page, PageError>) -> Plan
    ensures page { result.page ≡ page }
    ensures place { result.place ≡ start_place (told_page page).start }
    ensures rows { result.rows ≡ (told_page page).size }
{
    let (start, rows) = match page {
        Ok(page) => (page.start, page.size),
        Err(_) => (0, 0),
    };
    Plan {
        page,
        place: Place::start(start),
        rows,
    }
}

// The plan of a page of a trace within the limit.
pub fn plan_from(trace: Readable, offset: usize, count: usize, room: usize) -> Plan
    ensures { Planned plausible trace.entry.kinds.now trace.entry.bytes.now room (page_at plausible trace.entry.kinds.now trace.entry.bytes.now None offset count room) result }
{
    plan_of(page_at(trace, offset, count, room))
}

// The same of any trace: of one over the limit nothing is written.
pub fn plan_page(trace: Trace, offset: usize, count: usize, room: usize) -> Plan
    ensures { Planned plausible trace.entry.kinds.now trace.entry.bytes.now room (page_at plausible trace.entry.kinds.now trace.entry.bytes.now None offset count room) result }
{
    match trace.readable() {
        Ok(trace) => plan_from(trace, offset, count, room),
        Err(refusal) => plan_of(Err(refusal.into())),
    }
}
