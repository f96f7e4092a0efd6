// The first record of a trace, and its span: first_record and time_span of cursor.rs.
//
// A record is found by a search from a place, and read once: `record_from` and `meet` are what the span and the seeks see of a trace,
// `record_near` the same of any trace.
#![tactic(auto)]

ghost use Rattle.std.specs.Prelude.{◌≡◌, suc, ◌-◌, ◌<◌, ◌≤◌, pos, length, Ok, IfSome, option_map};
ghost use Rattle.layout.specs.Layout.{trace_limit};
ghost use Rattle.record.specs.Record.{plausible};
ghost use Rattle.span.specs.Met.{trace_of, meet_in, told_met, first_of, told_first};
ghost use Rattle.span.specs.Span.{last_time, last_back, span_of, told_span};

use layout::{Readable, Trace, TraceTooLong, ZLF_HEADER_SIZE};
use resync::{DEFAULT_WINDOW, SearchError};

// The first record at or after a place: where it begins, where it ends, and its time.
#[derive(Clone, Copy, Debug, PartialEq, Eq)]
pub struct Met {
    pub offset: usize,
    pub next_offset: usize,
    pub unix_millis: u64,
}

// Capture time of the first and last record, in milliseconds.
#[derive(Clone, Copy, Debug, PartialEq, Eq)]
pub struct Span {
    pub first: u64,
    pub last: u64,
}

// How far hi is above lo; 0 where the bounds have crossed.
pub fn distance(lo: usize, hi: usize) -> usize
    ensures { result ≡ hi - lo }
{
    hi.saturating_sub(lo)
}

// One search, and one reading of the record that it finds. A boundary begins a record, so there always is one.
pub fn record_from(trace: Readable, from: usize) -> Result<Option<Met>, SearchError>
    ensures { told_met result ≡ meet_in trace.entry.kinds.now trace.entry.bytes.now from }
{
    let Some(offset) = resync::search_from(trace, from, DEFAULT_WINDOW)?.offset else {
        return Ok(None);
    };
    let Some(header) = record::record_at(trace, offset) else {
        return Ok(None);
    };
    Ok(Some(Met {
        offset,
        next_offset: header.next_offset,
        unix_millis: header.unix_millis,
    }))
}

// The same of any trace: one over the limit is refused.
pub fn record_near(trace: Trace, from: usize) -> Result<Option<Met>, SearchError>
    ensures { told_met result ≡ meet_in trace.entry.kinds.now trace.entry.bytes.now from }
{
    record_from(trace.readable()?, from)
}

// The same, with none where the search is refused too: from a place within the limit none is. A record that is met lies further on, and ends
// inside the trace.
pub fn meet(trace: Readable, from: usize) -> Option<Met>
    ensures met { from ≤ trace_limit → told_met (Ok result) ≡ meet_in trace.entry.kinds.now trace.entry.bytes.now from }
    ensures further { IfSome result (λ met. (from ≤ met.offset) × (met.offset < met.next_offset) × (met.next_offset ≤ length trace.entry.bytes.now)) }
{
    record_from(trace, from).unwrap_or(None)
}

// Offset of the first record in the trace.
pub fn first_record(trace: Trace) -> Result<Option<usize>, TraceTooLong>
    ensures { told_first result ≡ first_of (trace_of plausible trace.entry.kinds.now trace.entry.bytes.now) }
{
    Ok(meet(trace.readable()?, ZLF_HEADER_SIZE).map(|met| met.offset))
}

// The time of the last record met by walking from a place, or the given one.
fn last_time(trace: Readable, from: usize, time: u64) -> u64
    requires { from ≤ length trace.bytes.now }
    ensures { pos result ≡ last_time (meet_in trace.entry.kinds.now trace.entry.bytes.now) (length trace.entry.bytes.now) from (pos time) }
{
    let mut last = time;
    let mut at = from;
    loop {
        let Some(met) = meet(trace, at) else {
            return last;
        };
        last = met.unix_millis;
        at = met.next_offset;
    }
}

// Walks back from the end until a record is found. A walk from the start meets the first record, so that there is none to
// be found never comes up.
fn last_back(trace: Readable) -> Option<u64>
    ensures { option_map pos result ≡ last_back (meet_in trace.entry.kinds.now trace.entry.bytes.now) (length trace.entry.bytes.now) (suc (length trace.entry.bytes.now)) 1048576 }
{
    let len = trace.bytes.len();
    let mut back = DEFAULT_WINDOW;
    loop {
        if let Some(met) = meet(trace, distance(back, len)) {
            return Some(last_time(trace, met.next_offset, met.unix_millis));
        }
        if len <= back {
            return None;
        }
        back *= 4;
    }
}

// Capture time of the first and last record, for the overall span.
pub fn time_span(trace: Trace) -> Result<Option<Span>, TraceTooLong>
    ensures { told_span result ≡ span_of (trace_of plausible trace.entry.kinds.now trace.entry.bytes.now) }
{
    let trace = trace.readable()?;
    let Some(first) = meet(trace, ZLF_HEADER_SIZE) else {
        return Ok(None);
    };
    Ok(last_back(trace).map(|last| Span {
        first: first.unix_millis,
        last,
    }))
}
