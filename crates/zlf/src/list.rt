// Pages of frames, each with its edges and its mark.
ghost use Rattle.std.specs.Prelude.{◌≡◌, None, cond, eqb};
ghost use Rattle.paging.specs.Page.{page_at};
ghost use Rattle.record.specs.Record.{plausible};

use crate::answer::{Opened, Query};
use crate::facts::Facts;
use crate::marks::Mark;
use crate::out::Lines;
use crate::{facts, out, refuse};
use layout::{Trace, UNKNOWN};
use paging::Page;
use rows::Row;
use seam::{Seam, SeamError};
use seek::SeekTime;

// The status that a mark gives.
pub fn status_of(seam: Result<Seam, SeamError>) -> u8 {
    match seam {
        Ok(Seam::Unbroken { records: _ }) => 0,
        _ => 1,
    }
}

// The line of a mark.
pub fn put_mark(lines: &mut Lines, seam: Result<Seam, SeamError>, place: usize, size: usize) {
    if lines.plain {
        fields::mark_fields(&mut lines.out, seam, place);
    } else {
        show::mark_line(&mut lines.out, seam, place, size);
    }
}

// The kind of the record at a place.
fn kind_at(trace: Trace, at: usize) -> u8 {
    match record::read_record(trace, at) {
        Ok(Some(header)) => header.kind,
        _ => UNKNOWN,
    }
}

// So many bytes from a place, as far as they are there.
fn part(s: &[u8], from: usize, n: usize) -> &[u8] {
    out::first(s.get(from..).unwrap_or(s), n)
}

// The line of a row.
fn put_row(lines: &mut Lines, trace: Trace, row: Row) {
    let kind = kind_at(trace, row.record);
    let mpdu = part(trace.bytes, row.mpdu, row.mpdu_len);
    if lines.plain {
        fields::frame_fields(&mut lines.out, kind, row, mpdu);
    } else {
        show::frame_line(&mut lines.out, kind, row, mpdu);
    }
}

// The lines of rows.
fn put_rows(lines: &mut Lines, trace: Trace, rows: &[Row]) {
    for &row in rows {
        lines.spill();
        put_row(lines, trace, row);
    }
}

// The line of a page's edges: where it starts, its rows, and where the next one goes on.
fn put_edges(lines: &mut Lines, page: Page) {
    let start = page.start as u64;
    let size = page.size as u64;
    match page.next {
        Some(next) => lines.put(
            b"P % % %\n",
            b"page from %, frames: %, next page from %\n",
            Facts::of(start, size, next as u64),
        ),
        None => lines.put(
            b"P % % -\n",
            b"page from %, frames: %, no next page\n",
            Facts::of(start, size, 0),
        ),
    }
}

// The lines of a page, its edges and its mark, which is from the page's start.
fn put_page(lines: &mut Lines, page: Page, rows: &[Row], mark: Mark)
    requires { mark.place ≡ page.start }
{
    lines.spill();
    lines.put_heading(
        b"time (UTC)                       gap ms way region   rate  ch  RSSI  beams      record  pos  MPDU\n",
    );
    put_rows(lines, mark.trace, rows);
    lines.spill();
    put_edges(lines, page);
    put_mark(lines, mark.seam, mark.place, mark.trace.bytes.len());
}

// Where a walk over pages stands: the next page's offset, if there is a next page; the mark of the last one; and the worst status.
// Before the first page the mark is that of place 0, which is refused.
#[derive(Clone, Copy)]
struct Walk<'a> {
    next: Option<usize>,
    mark: Mark<'a>,
    status: u8,
}

// The page at an offset: its lines, its edges and its mark. Where there is no page, the mark stays as it was.
fn turned<'a>(query: Query, walk: Walk<'a>, offset: usize, lines: &mut Lines) -> Walk<'a>
    ensures trace { result.mark.trace ≡ walk.entry.mark.trace }
    ensures place { let mark = walk.entry.mark in
        let page = (page_at plausible mark.trace.kinds.now mark.trace.bytes.now None offset query.entry.ask.count 600).told in
        result.mark.place ≡ cond (eqb page.refusal 0) page.start mark.place }
{
    let trace = walk.mark.trace;
    let table = cursor::frames_table(trace, offset, query.ask.count as usize);
    let page = match table.page {
        Ok(page) => page,
        Err(e) => {
            refuse::refusal(query.rt, query.path, e, Facts::of(offset as u64, 0, 0));
            return Walk {
                next: None,
                status: 2,
                ..walk
            };
        }
    };
    let mark = walk.mark.later(page.start);
    let rows = table.rows.get(..page.size).unwrap_or(&table.rows);
    put_page(lines, page, rows, mark);
    Walk {
        next: page.next,
        mark,
        status: walk.status.max(status_of(mark.seam)),
    }
}

// Pages, each from the place that the last one named.
fn pages(query: Query, trace: Trace, from: usize, lines: &mut Lines) -> u8 {
    let mut walk = Walk {
        next: Some(from),
        mark: Mark::at(trace, 0),
        status: 0,
    };
    for _ in 0..query.ask.pages {
        let Some(offset) = walk.next else {
            break;
        };
        if lines.is_unread() {
            break;
        }
        walk = turned(query, walk, offset, lines);
    }
    lines.finish(walk.status)
}

// The pages that are asked for, from a place or from a time on.
pub fn list(query: Query, opened: Opened, lines: &mut Lines) -> u8 {
    let trace = opened.trace;
    let Some(time) = query.ask.time else {
        return pages(query, trace, query.ask.place, lines);
    };
    match seek::seek_time(trace, time) {
        Ok(
            SeekTime {
                offset: Some(offset),
                ..
            },
        ) => pages(query, trace, offset, lines),
        _ => {
            refuse::file(
                query.rt,
                query.path,
                b": no record at that time or later\n",
                facts::NONE,
            );
            1
        }
    }
}
