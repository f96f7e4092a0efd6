// Finding record boundaries at any offset of a trace: the rest of resync.rs.
//
// Records are of any length, so an offset alone does not say where one begins: a boundary is known by the records that
// follow it.
#![tactic(auto)]

ghost use Rattle.std.specs.Prelude.{cond, ◌≡◌, ◌+◌, ◌≤◌, length};
ghost use Rattle.record.specs.Record.{plausible, next_at};
ghost use Rattle.resync.specs.Boundary.{boundary, boundary_at, told_boundary};
ghost use Rattle.resync.specs.Block.{block, may_begin, none_valid, passed_to};
ghost use Rattle.resync.specs.Search.{First, search_refusal, search_from, told_search, time_at, told_time};
ghost use Rattle.resync.specs.declared.SearchError.TheVariants as Why;

use layout::{Readable, Refusal, Trace, TraceTooLong, ZLF_HEADER_SIZE};

// Consecutive records that must be valid before an offset is accepted.
const CHAIN: usize = 3;

// Where the highest bytes of a record's ticks and of its length stand. A search looks at these two first: an offset at which they can
// be a valid record's is a candidate, and only candidates are judged in full.
const TICKS_HIGH: usize = 7;

const LENGTH_HIGH: usize = 12;

// Offsets that are looked at together.
const BLOCK: usize = 32;

// Candidates no further apart than this are near each other.
const NEAR: usize = 8;

// How far pages, span and seeks search for a boundary.
pub const DEFAULT_WINDOW: usize = 1_048_576;

// Why a search gives nothing: the trace is over the limit, or the window's end is over the largest offset.
#[derive(Clone, Copy, Debug, PartialEq, Eq)]
pub enum SearchError {
    TraceTooLong,
    WindowTooLong,
}

impl From<TraceTooLong> for SearchError {
    ghost from_gives = { λ _ e. e ≡ Why.TraceTooLong };

    fn from(_refusal: TraceTooLong) -> SearchError {
        Self::TraceTooLong
    }
}

impl Refusal for SearchError {
    ghost number = { search_refusal };

    fn number(self) -> u32 {
        match self {
            SearchError::TraceTooLong => 1,
            SearchError::WindowTooLong => 5,
        }
    }
}

// What a search finds, and how many offsets it judged.
#[derive(Clone, Copy, Debug, PartialEq, Eq)]
pub struct Search {
    pub offset: Option<usize>,
    pub judged: usize,
}

// The first record at or after an offset, and its time in milliseconds.
#[derive(Clone, Copy, Debug, PartialEq, Eq)]
pub struct RecordTime {
    pub offset: usize,
    pub unix_millis: u64,
}

// True when `offset` begins a run of CHAIN valid records.
fn begins_run(trace: Readable, offset: usize) -> bool
    ensures { result ≡ boundary (next_at plausible trace.entry.kinds.now trace.entry.bytes.now) (length trace.entry.bytes.now) offset }
{
    let Some(header) = record::record_at(trace, offset) else {
        return false;
    };
    let mut at = header.next_offset;
    for _ in 1..CHAIN {
        // Running off the end still counts: the last records of a trace cannot be followed by CHAIN more.
        if trace.bytes.len() <= at {
            return true;
        }
        let Some(next) = record::record_at(trace, at) else {
            return false;
        };
        at = next.next_offset;
    }
    true
}

// Whether `offset` is a boundary.
pub fn is_boundary(trace: Trace, offset: usize) -> Result<bool, TraceTooLong>
    ensures { told_boundary result ≡ boundary_at plausible trace.entry.kinds.now trace.entry.bytes.now offset }
{
    Ok(begins_run(trace.readable()?, offset))
}

// Whether the highest bytes of the ticks and of the length can be those of a valid record.
fn may_begin(ticks: u8, size: u8) -> bool
    ensures { result ≡ may_begin ticks size }
{
    ((ticks % 64 == 8) | (ticks % 64 == 9)) & (size == 0)
}

// `place`, if these highest bytes can be those of a valid record; else BLOCK.
fn place_or_end(place: u8, ticks: u8, size: u8) -> u8
    ensures { result ≡ cond (may_begin ticks size) place block }
{
    if may_begin(ticks, size) {
        place
    } else {
        BLOCK as u8
    }
}

// How many of the BLOCK offsets from `at` on are passed over: those before the first candidate. Every turn does the same, on bytes
// alone, so that the compiler does 16 turns at once.
fn passed_over(s: &[u8], at: usize) -> usize
    requires { at + block + 12 ≤ length s.now }
    ensures { (result ≤ block) × none_valid s.now at (at + result) }
{
    let mut first = BLOCK as u8;
    for i in 0..BLOCK {
        first = first.min(place_or_end(i as u8, s[at + i + TICKS_HIGH], s[at + i + LENGTH_HIGH]));
    }
    first as usize
}

// The first candidate from `start` on, as far as whole blocks tell. Nearly all offsets of a search are passed over here.
fn block_candidate(s: &[u8], start: usize, limit: usize) -> usize
    requires { (start ≤ limit) × (limit ≤ length s.now) }
    ensures { passed_to s.now start limit result }
{
    let mut at = start;
    while BLOCK + LENGTH_HIGH <= limit - at {
        let passed = passed_over(s, at);
        if passed < BLOCK {
            return at + passed;
        }
        at += BLOCK;
    }
    at
}

// The first candidate of the NEAR offsets from `start` on, or the offset after them; one at a time. With fewer left, `start`.
fn near_candidate(s: &[u8], start: usize, limit: usize) -> usize
    requires { (start ≤ limit) × (limit ≤ length s.now) }
    ensures { passed_to s.now start limit result }
{
    if limit - start < NEAR + LENGTH_HIGH {
        return start;
    }
    for at in start..start + NEAR {
        if may_begin(s[at + TICKS_HIGH], s[at + LENGTH_HIGH]) {
            return at;
        }
    }
    start + NEAR
}

// The first candidate from `start` on, or an offset before it. Each candidate costs a block; where two were near each other, more of them
// are likely to follow, and one offset at a time is cheaper.
fn candidate(s: &[u8], start: usize, limit: usize, near: bool) -> usize
    requires { (start ≤ limit) × (limit ≤ length s.now) }
    ensures { passed_to s.now start limit result }
{
    if near {
        near_candidate(s, start, limit)
    } else {
        block_candidate(s, start, limit)
    }
}

// The first boundary among the offsets from `start` and below `limit`, or `limit`. Many searches start at a boundary, so `start` is
// judged before any candidate is looked for.
fn first_boundary(trace: Readable, start: usize, limit: usize) -> usize
    requires { (start ≤ limit) × (limit ≤ length trace.bytes.now) }
    ensures { First (boundary (next_at plausible trace.entry.kinds.now trace.entry.bytes.now) (length trace.entry.bytes.now)) start limit result }
{
    let mut offset = start;
    let mut near = false;
    while offset < limit {
        if begins_run(trace, offset) {
            return offset;
        }
        let next = candidate(trace.bytes, offset + 1, limit, near);
        near = next - offset <= NEAR;
        offset = next;
    }
    limit
}

// The first boundary at or after `from`, not below the header, of the offsets of a window.
pub fn search_from(trace: Readable, from: usize, window: usize) -> Result<Search, SearchError>
    ensures { told_search result ≡ search_from plausible trace.entry.kinds.now trace.entry.bytes.now from window }
{
    let start = from.max(ZLF_HEADER_SIZE);
    let end = start.checked_add(window).ok_or(SearchError::WindowTooLong)?;
    let limit = end.min(trace.bytes.len());
    if limit <= start {
        return Ok(Search {
            offset: None,
            judged: 0,
        });
    }
    let offset = first_boundary(trace, start, limit);
    if offset < limit {
        return Ok(Search {
            offset: Some(offset),
            judged: offset - start + 1,
        });
    }
    Ok(Search {
        offset: None,
        judged: limit - start,
    })
}

// The same of any trace: one over the limit is refused.
pub fn next_record_at(trace: Trace, from: usize, window: usize) -> Result<Search, SearchError>
    ensures { told_search result ≡ search_from plausible trace.entry.kinds.now trace.entry.bytes.now from window }
{
    search_from(trace.readable()?, from, window)
}

// Capture time of the first record at or after `offset`, with its position.
pub fn record_time_at(trace: Trace, offset: usize) -> Result<Option<RecordTime>, SearchError>
    ensures { told_time result ≡ time_at plausible trace.entry.kinds.now trace.entry.bytes.now offset }
{
    let trace = trace.readable()?;
    let Some(at) = search_from(trace, offset, DEFAULT_WINDOW)?.offset else {
        return Ok(None);
    };
    let Some(header) = record::record_at(trace, at) else {
        return Ok(None);
    };
    Ok(Some(RecordTime {
        offset: at,
        unix_millis: header.unix_millis,
    }))
}
