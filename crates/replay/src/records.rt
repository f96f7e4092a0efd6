// Cases r, n and t: a record, a search, and the time of the first record from a place on.
use crate::out;
use crate::out::Or;
use layout::Trace;
use record::RecordHeader;
use std::fmt;
use std::fmt::Write;

// The numbers of a record, in the order of the oracle's line.
fn numbers(out: &mut impl Write, h: RecordHeader) -> fmt::Result {
    write!(
        out,
        " {} {} {} {} {} {} {} {}",
        h.offset,
        h.raw_ticks,
        h.unix_millis,
        u8::from(h.is_outcome),
        h.session_id,
        h.payload_len,
        h.kind,
        h.next_offset
    )
}

// The record at an offset.
pub fn record(out: &mut impl Write, trace: Trace, offset: usize) -> fmt::Result {
    match record::read_record(trace, offset) {
        Ok(Some(header)) => numbers(out, header),
        Ok(None) => out.write_str(" -"),
        Err(e) => out::refused(out, e),
    }
}

// The search from an offset with a window.
pub fn search(out: &mut impl Write, trace: Trace, from: usize, window: usize) -> fmt::Result {
    match resync::next_record_at(trace, from, window) {
        Ok(s) => write!(out, " {} {}", Or(s.offset, '-'), s.judged),
        Err(e) => out::refused(out, e),
    }
}

// The first record from an offset on, and its time.
pub fn time(out: &mut impl Write, trace: Trace, from: usize) -> fmt::Result {
    match resync::record_time_at(trace, from) {
        Ok(Some(t)) => write!(out, " {} {}", t.offset, t.unix_millis),
        Ok(None) => out.write_str(" -"),
        Err(e) => out::refused(out, e),
    }
}
