// A record at an offset of a trace: the record test of resync.rs.
//
//     ticks(8) | props(1) | len(4) | payload(len) | eod(1)
//
// A record is known by its ticks, its length, its end byte and, for PTI, its payload's first byte.
#![tactic(auto)]

ghost use Rattle.std.specs.Prelude.{◌≡◌, Ok};
ghost use Rattle.layout.specs.Layout.{trace_limit};
ghost use Rattle.record.specs.Record.{plausible, ticks_in, length_in, opens_right, record_at, told_record};

use layout::{
    LENGTH, PROPERTIES, PTI, PTI_DIAGNOSTIC, RECORD_HEADER, Readable, Trace, TraceTooLong, UNKNOWN,
};
use ticks::{TICKS_PER_MILLISECOND, TICKS_UNIX_EPOCH};

// Largest payload considered plausible.
const MAX_PAYLOAD: usize = 1_048_576;

// Ticks that bound a plausible capture time, both accepted.
const TICKS_2000: u64 = 630_822_816_000_000_000;

const TICKS_2100: u64 = 662_479_488_000_000_000;

// What a PTI payload opens with.
const PREAMBLE: u8 = 0x5B;

// A record header read from the trace. The offset of the record that follows and the capture time, in milliseconds since
// the Unix epoch, come with it; a valid record's time is after 2000, so it is unsigned.
#[derive(Clone, Copy, Debug, PartialEq, Eq)]
pub struct RecordHeader {
    pub offset: usize,
    pub raw_ticks: u64,
    pub is_outcome: bool,
    pub session_id: u8,
    pub payload_len: usize,
    pub end: u8,
    pub kind: u8,
    pub next_offset: usize,
    pub unix_millis: u64,
}

// The condition on a record's ticks, the top two bits cleared.
fn ticks_plausible(ticks: u64) -> bool
    ensures { result ≡ ticks_in plausible ticks }
{
    (TICKS_2000..=TICKS_2100).contains(&ticks)
}

// The condition on a record's length.
fn length_plausible(len: usize) -> bool
    ensures { result ≡ length_in len }
{
    (1..=MAX_PAYLOAD).contains(&len)
}

// PTI payloads open with '['. Other kinds carry their own shapes.
fn opens_right(kind: u8, first: u8) -> bool
    ensures { result ≡ opens_right kind first }
{
    !((kind == PTI) | (kind == PTI_DIAGNOSTIC)) | (first == PREAMBLE)
}

// Reads and validates a single record header at `offset`.
#[tactic(auto, using(crate::proofs::Ways::kind_zero))]
pub fn record_at(trace: Readable, offset: usize) -> Option<RecordHeader>
    ensures { told_record (Ok result) ≡ record_at plausible trace.entry.kinds.now trace.entry.bytes.now offset }
{
    let s = trace.bytes;
    let len = s.len();
    if len < RECORD_HEADER {
        return None;
    }
    if len - RECORD_HEADER < offset {
        return None;
    }
    let raw_ticks = layout::u64_at(s, offset);
    let ticks = ticks::ticks(raw_ticks);
    if !ticks_plausible(ticks) {
        return None;
    }
    let payload_len = layout::u32_at(s, offset + LENGTH) as usize;
    if !length_plausible(payload_len) {
        return None;
    }
    let end_offset = offset + RECORD_HEADER + payload_len;
    if len <= end_offset {
        return None;
    }
    let end = s[end_offset];
    let kind = layout::kind_of(trace.kinds, end);
    if kind == UNKNOWN {
        return None;
    }
    if !opens_right(kind, s[offset + RECORD_HEADER]) {
        return None;
    }
    let props = s[offset + PROPERTIES];
    Some(RecordHeader {
        offset,
        raw_ticks,
        is_outcome: 128 <= props,
        session_id: props % 128,
        payload_len,
        end,
        kind,
        next_offset: end_offset + 1,
        unix_millis: (ticks - TICKS_UNIX_EPOCH) / TICKS_PER_MILLISECOND,
    })
}

// The same of any trace: one over the limit is refused.
pub fn read_record(trace: Trace, offset: usize) -> Result<Option<RecordHeader>, TraceTooLong>
    ensures { told_record result ≡ record_at plausible trace.entry.kinds.now trace.entry.bytes.now offset }
{
    Ok(record_at(trace.readable()?, offset))
}
