// The record at an offset, and the search for a boundary.
ghost use Rattle.std.specs.Prelude.{◌≡◌};
ghost use Rattle.record.specs.Record.{plausible, record_at, told_record};
ghost use Rattle.resync.specs.Search.{search_from, told_search};
ghost use Rattle.capi_records.specs.Records.{record_told, search_told};

use layout::{Refusal, Trace, TraceTooLong};
use record::RecordHeader;
use resync::{Search, SearchError};

// The refusal's number or 0, whether the record is valid, its fields, the offset after it, and its time in milliseconds, which is
// after 2000 and so unsigned.
#[repr(C)]
#[derive(Clone, Copy, Default)]
pub struct RecordAnswer {
    pub refusal: u32,
    pub is_valid: bool,
    pub offset: usize,
    pub ticks: u64,
    pub outgoing: bool,
    pub session: u8,
    pub size: usize,
    pub end_byte: u8,
    pub kind: u8,
    pub next: usize,
    pub millis: u64,
}

// The refusal's number or 0, whether a boundary was found, where, and how many offsets were judged.
#[repr(C)]
#[derive(Clone, Copy)]
pub struct SearchAnswer {
    pub refusal: u32,
    pub is_found: bool,
    pub offset: usize,
    pub judged: usize,
}

impl From<Result<Option<RecordHeader>, TraceTooLong>> for RecordAnswer {
    ghost from_gives = { λ found answer. record_told answer ≡ told_record found };

    fn from(found: Result<Option<RecordHeader>, TraceTooLong>) -> Self {
        match found {
            Ok(Some(header)) => RecordAnswer {
                refusal: 0,
                is_valid: true,
                offset: header.offset,
                ticks: header.raw_ticks,
                outgoing: header.is_outcome,
                session: header.session_id,
                size: header.payload_len,
                end_byte: header.end,
                kind: header.kind,
                next: header.next_offset,
                millis: header.unix_millis,
            },
            Ok(None) => RecordAnswer::default(),
            Err(error) => RecordAnswer {
                refusal: error.number(),
                ..RecordAnswer::default()
            },
        }
    }
}

// The record at an offset.
#[unsafe(no_mangle)]
pub extern "C" fn zlf_record(kinds: &[u8; 256], trace: &[u8], offset: usize) -> RecordAnswer
    ensures { record_told result ≡ record_at plausible kinds.now trace.now offset }
{
    let trace = Trace {
        kinds,
        bytes: trace,
    };
    record::read_record(trace, offset).into()
}

impl From<Result<Search, SearchError>> for SearchAnswer {
    ghost from_gives = { λ search answer. search_told answer ≡ told_search search };

    fn from(search: Result<Search, SearchError>) -> Self {
        match search {
            Ok(search) => SearchAnswer {
                refusal: 0,
                is_found: search.offset.is_some(),
                offset: search.offset.unwrap_or(0),
                judged: search.judged,
            },
            Err(refusal) => SearchAnswer {
                refusal: refusal.number(),
                is_found: false,
                offset: 0,
                judged: 0,
            },
        }
    }
}

// The first boundary at or after `from`, of the offsets of a window.
#[unsafe(no_mangle)]
pub extern "C" fn zlf_search(
    kinds: &[u8; 256],
    trace: &[u8],
    from: usize,
    window: usize,
) -> SearchAnswer
    ensures { search_told result ≡ search_from plausible kinds.now trace.now from window }
{
    let trace = Trace {
        kinds,
        bytes: trace,
    };
    resync::next_record_at(trace, from, window).into()
}
