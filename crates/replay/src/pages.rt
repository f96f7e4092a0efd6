// Cases o, u, f and F: opening as a cursor, the seam check, a page, and pages each from the place that the last one named.
use crate::out::Or;
use crate::{bodies, out};
use layout::{Refusal, Trace};
use paging::{Page, PageError};
use pti::PtiFrame;
use rows::Row;
use seam::{OpenError, Seam};
use std::fmt;
use std::fmt::Write;

// Opening as a cursor.
pub fn opened(out: &mut impl Write, version: u32, trace: &[u8]) -> fmt::Result {
    match seam::open(trace, version) {
        Ok(found) => write!(out, " {found}"),
        Err(e @ OpenError::OtherVersion { version: found }) => {
            write!(out, " R {} {found}", e.number())
        }
        Err(e) => out::refused(out, e),
    }
}

// The seam check.
pub fn seam(out: &mut impl Write, trace: Trace, from: usize) -> fmt::Result {
    match seam::seam_check(trace, from) {
        Ok(Seam::Unbroken { records }) => write!(out, " U {from} {records}"),
        Ok(Seam::Broken { place, records }) => write!(out, " B {from} {place} {records}"),
        Err(e) => out::refused(out, e),
    }
}

// A line for a row: its record, its position, its time and its gap, and its frame, whose MPDU stands in the trace.
fn row(out: &mut impl Write, r: &Row, trace: &[u8]) -> fmt::Result {
    write!(
        out,
        "\n  {} {} {} {}",
        r.record, r.position, r.millis, r.gap
    )?;
    let frame = PtiFrame {
        direction: r.direction,
        region: r.region,
        channel: r.channel,
        speed: r.speed,
        rssi: r.rssi,
        beam_count: r.beam_count,
        mpdu: r.mpdu,
        mpdu_len: r.mpdu_len,
    };
    bodies::frame(out, frame, trace)
}

// The rows of a table of which n were written. Those past them are as the table had them before the page, or it says so.
fn rows(out: &mut impl Write, table: &[Row; 600], n: usize, trace: &[u8]) -> fmt::Result {
    for r in table.iter().take(n) {
        row(out, r, trace)?;
    }
    for r in table.iter().skip(n) {
        if *r != Row::default() {
            out.write_str(" and a row past them")?;
        }
    }
    Ok(())
}

// The line for a page: its start, its number of rows, and the next place if there is one; or its refusal.
fn edge(out: &mut impl Write, page: Result<Page, PageError>) -> fmt::Result {
    match page {
        Ok(p) => write!(out, "\n page {} {} {}", p.start, p.size, Or(p.next, '-')),
        Err(e @ PageError::TableTooShort) => write!(out, "\n R {}", e.number()),
        Err(e) => out::refused(out, e),
    }
}

// A page, its rows and its line; the next place.
fn shown(
    out: &mut impl Write,
    trace: Trace,
    offset: usize,
    count: usize,
) -> Result<Option<usize>, fmt::Error> {
    let mut table = [Row::default(); 600];
    let page = cursor::frames_at(trace, offset, count, &mut table);
    let size = page.map_or(0, |p| p.size);
    rows(out, &table, size, trace.bytes)?;
    edge(out, page)?;
    Ok(page.map_or(None, |p| p.next))
}

// One page.
pub fn page(out: &mut impl Write, trace: Trace, offset: usize, count: usize) -> fmt::Result {
    shown(out, trace, offset, count)?;
    Ok(())
}

// Pages up to the last one: there are no more of them than bytes, and one.
pub fn pages(out: &mut impl Write, trace: Trace, offset: usize, count: usize) -> fmt::Result {
    let mut from = offset;
    for _ in 0..=trace.bytes.len() {
        let Some(next) = shown(out, trace, from, count)? else {
            return Ok(());
        };
        from = next;
    }
    Ok(())
}
