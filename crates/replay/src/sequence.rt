// Cases g, S, q and Q: the header sum, and reading in sequence, from an opening and from any place.
use crate::out;
use crate::out::Or;
use layout::{Refusal, Trace};
use reader::{OpenError, ReadError, ZlfReader, ZlfRecord};
use std::fmt;
use std::fmt::Write;

// The sum of bytes.
pub fn sum(out: &mut impl Write, bytes: &[u8]) -> fmt::Result {
    write!(out, " {}", checksum::header_sum(bytes))
}

// The sum of the trace's bytes from one place to another; nothing where they are not there.
pub fn part_sum(out: &mut impl Write, trace: &[u8], from: usize, to: usize) -> fmt::Result {
    match trace.get(from..to) {
        Some(part) => sum(out, part),
        None => out.write_str(" -"),
    }
}

// A line for a record: its numbers in the order of the oracle's line, and the sum of its payload.
fn entry(out: &mut impl Write, h: ZlfRecord, trace: &[u8]) -> fmt::Result {
    write!(
        out,
        "\n  {} {} {} {} {} {} {} {} {}",
        h.offset,
        h.raw_ticks,
        u8::from(h.is_outcome),
        h.session_id,
        h.end,
        h.kind,
        h.payload_offset,
        h.payload_len,
        Or(out::sum_of(trace, h.payload_offset, h.payload_len), '?')
    )
}

// The line for a refusal, with the reader's place and count, unless no trace is read.
fn stopped(out: &mut impl Write, e: ReadError, r: ZlfReader) -> fmt::Result {
    let number = e.number();
    let place = r.place;
    let count = r.record_count();
    match e {
        ReadError::TraceTooLong => write!(out, "\n R {number}"),
        ReadError::InvalidPayloadLength { length } => {
            write!(out, "\n R {number} {length} {place} {count}")
        }
        ReadError::EofInHead | ReadError::EofInPayload => {
            write!(out, "\n R {number} {place} {count}")
        }
    }
}

// A line for each record from a reader on, and how the read ends: a trace has no more records than bytes.
fn entries(out: &mut impl Write, start: ZlfReader, trace: Trace) -> fmt::Result {
    let mut reader = start;
    for _ in 0..=trace.bytes.len() {
        match reader.next_record(trace) {
            Ok(Some(next)) => {
                entry(out, next.record, trace.bytes)?;
                reader = next.reader;
            }
            Ok(None) => return write!(out, "\n end {} {}", reader.place, reader.record_count()),
            Err(e) => return stopped(out, e, reader),
        }
    }
    Ok(())
}

// From an opening.
pub fn opened(out: &mut impl Write, version: u32, trace: Trace) -> fmt::Result {
    match ZlfReader::new(trace.bytes, version) {
        Ok(opened) => {
            write!(out, " {}", opened.version)?;
            entries(out, opened.reader, trace)
        }
        Err(e @ OpenError::InvalidZlfVersion { version: found }) => {
            write!(out, " R {} {found}", e.number())
        }
        Err(e) => out::refused(out, e),
    }
}

// From any place.
pub fn from(out: &mut impl Write, place: usize, trace: Trace) -> fmt::Result {
    entries(out, ZlfReader { place, count: 0 }, trace)
}
