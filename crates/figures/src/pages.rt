// Openings, pages and the seam check.
use crate::say;
use layout::Trace;
use paging::{Page, PageError};
use rows::Row;
use seam::{OpenError, Seam, SeamError};
use std::io;

pub fn opening(rt: &impl Print, answer: Result<u32, OpenError>) -> io::Result<()> {
    match answer {
        Ok(version) => print!(rt; " V {version}"),
        Err(e) => {
            say::refused(rt, e)?;
            if let OpenError::OtherVersion { version } = e {
                print!(rt; " {version}")?;
            }
            Ok(())
        }
    }
}

pub fn seam(rt: &impl Print, answer: Result<Seam, SeamError>) -> io::Result<()> {
    match answer {
        Ok(Seam::Unbroken { records }) => print!(rt; " U {records}"),
        Ok(Seam::Broken { place, records }) => print!(rt; " B {place} {records}"),
        Err(e) => say::refused(rt, e),
    }
}

// A page: its start, how many rows it has, and the next place.
fn page(rt: &impl Print, answer: Result<Page, PageError>) -> io::Result<()> {
    match answer {
        Ok(Page { start, size, next }) => {
            print!(rt; " {start} {size}")?;
            say::found(rt, next)
        }
        Err(e) => say::refused(rt, e),
    }
}

// The page of a table of 600 rows.
// Kept: a function of its own, as `first_row`. The table's room is zeroed wherever a function that has it begins, and `ask` begins at each line.
pub fn page_of_table(rt: &impl Print, trace: Trace, offset: usize, count: usize) -> io::Result<()> {
    page(rt, cursor::frames_table(trace, offset, count).page)
}

// The table's first row.
pub fn first_row(rt: &impl Print, trace: Trace, offset: usize, count: usize) -> io::Result<()> {
    row(rt, cursor::frames_table(trace, offset, count).rows[0])
}

// A row's fields in order, R or T for direction.
fn row(rt: &impl Print, r: Row) -> io::Result<()> {
    print!(rt;
        " {} {} {} {} {} {} {} {} {} {} {} {}",
        r.record,
        r.position,
        r.millis,
        r.gap,
        if r.direction == 0 { "R" } else { "T" },
        r.region,
        r.channel,
        r.speed,
        r.rssi,
        r.beam_count,
        r.mpdu,
        r.mpdu_len
    )
}
