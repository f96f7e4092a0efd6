// Reading a trace in sequence: the rest of zlf/reader.rs. Opening, and one record after another.
#![tactic(auto)]

ghost use Rattle.std.specs.Prelude.{◌≡◌, ◌≤◌, ◌<◌, length, Ok, Some};
ghost use Rattle.layout.specs.Layout.{header_size};
ghost use Rattle.layout.specs.Fields.{length_at, end_place};
ghost use Rattle.reader.specs.Opening.{opened, told_opening, sum_right, open_refusal};
ghost use Rattle.reader.specs.Next.{record_told, next_of, told_next, read_refusal};

use layout::{
    LENGTH, PROPERTIES, RECORD_HEADER, Readable, Refusal, TRACE_LIMIT, Trace, TraceTooLong,
    ZLF_HEADER_SIZE,
};

// Offset of the header's sum within the header.
pub const HEADER_CRC_OFFSET: usize = 2046;

// The reader: the place of the next record and the number of records read. It goes in by value, and comes back moved on with a record.
#[derive(Clone, Copy, Debug, PartialEq, Eq)]
pub struct ZlfReader {
    pub place: usize,
    pub count: u64,
}

// One record as stored, with where its payload lies. The payload is not frame-aligned: it may hold part of a frame, one, or
// several.
#[derive(Clone, Copy, Debug, PartialEq, Eq)]
pub struct ZlfRecord {
    pub offset: usize,
    pub raw_ticks: u64,
    pub is_outcome: bool,
    pub session_id: u8,
    pub end: u8,
    pub kind: u8,
    pub payload_offset: usize,
    pub payload_len: usize,
}

// A record, and the reader moved on past it.
#[derive(Clone, Copy, Debug, PartialEq, Eq)]
pub struct Next {
    pub record: ZlfRecord,
    pub reader: ZlfReader,
}

// An opened trace: the version found, and the reader at its first record.
#[derive(Clone, Copy, Debug, PartialEq, Eq)]
pub struct Opened {
    pub version: u32,
    pub reader: ZlfReader,
}

// Why a trace is not opened.
#[derive(Clone, Copy, Debug, PartialEq, Eq)]
pub enum OpenError {
    TraceTooLong,
    TraceTooShort,
    InvalidHeaderChecksum,
    InvalidZlfVersion { version: u32 },
}

impl Refusal for OpenError {
    ghost number = { open_refusal };

    fn number(self) -> u32 {
        match self {
            OpenError::TraceTooLong => 1,
            OpenError::TraceTooShort => 2,
            OpenError::InvalidHeaderChecksum => 3,
            OpenError::InvalidZlfVersion { .. } => 4,
        }
    }
}

// Why there is no next record, where it is not the trace's end.
#[derive(Clone, Copy, Debug, PartialEq, Eq)]
pub enum ReadError {
    TraceTooLong,
    InvalidPayloadLength { length: i32 },
    EofInHead,
    EofInPayload,
}

impl From<TraceTooLong> for ReadError {
    ghost use Rattle.reader.specs.declared.ReadError.{ReadError};

    ghost from_gives = { λ _ e. e ≡ ReadError.TraceTooLong };

    fn from(_refusal: TraceTooLong) -> Self {
        ReadError::TraceTooLong
    }
}

impl Refusal for ReadError {
    ghost number = { read_refusal };

    fn number(self) -> u32 {
        match self {
            ReadError::TraceTooLong => 1,
            ReadError::InvalidPayloadLength { .. } => 8,
            ReadError::EofInHead => 9,
            ReadError::EofInPayload => 10,
        }
    }
}

// Whether the header's sum is the stored one.
fn sum_right(s: &[u8]) -> bool
    requires { header_size ≤ length s.now }
    ensures { result ≡ sum_right s.now }
{
    checksum::header_sum(&s[..HEADER_CRC_OFFSET]) == layout::u16_at(s, HEADER_CRC_OFFSET)
}

impl ZlfReader {
    // Check the header's sum and then its version.
    #[tactic(auto, unfolding(crate::specs::Opening::opened))]
    pub fn new(bytes: &[u8], version: u32) -> Result<Opened, OpenError>
        ensures { told_opening result ≡ opened bytes.now version }
    {
        if TRACE_LIMIT < bytes.len() {
            return Err(OpenError::TraceTooLong);
        }
        if bytes.len() < ZLF_HEADER_SIZE {
            return Err(OpenError::TraceTooShort);
        }
        if !sum_right(bytes) {
            return Err(OpenError::InvalidHeaderChecksum);
        }
        let found = layout::u32_at(bytes, 0);
        if found != version {
            return Err(OpenError::InvalidZlfVersion { version: found });
        }
        Ok(Opened {
            version: found,
            reader: ZlfReader {
                place: ZLF_HEADER_SIZE,
                count: 0,
            },
        })
    }

    // Number of records read so far.
    pub fn record_count(self) -> u64
        ensures { result ≡ self.count }
    {
        self.count
    }

    // The record at the reader's place, where all of it is there; the count stays at the largest number.
    fn record_at(self, trace: Readable, size: usize) -> Next
        requires { (size ≡ length_at trace.bytes.now self.place) × (end_place trace.bytes.now self.place < length trace.bytes.now) }
        ensures { told_next self (Ok (Some result)) ≡ record_told trace.entry.kinds.now trace.entry.bytes.now self }
    {
        let s = trace.bytes;
        let place = self.place;
        let payload = place + RECORD_HEADER;
        let properties = s[place + PROPERTIES];
        let end = s[payload + size];
        Next {
            record: ZlfRecord {
                offset: place,
                raw_ticks: layout::u64_at(s, place),
                is_outcome: 128 <= properties,
                session_id: properties % 128,
                end,
                kind: layout::kind_of(trace.kinds, end),
                payload_offset: payload,
                payload_len: size,
            },
            reader: ZlfReader {
                place: payload + size + 1,
                count: self.count.saturating_add(1),
            },
        }
    }

    // The next record, none at the trace's end, or why there is none. It has an answer at any place: the lengths are compared from the trace's
    // end, so that no sum overflows.
    #[tactic(auto, using(layout::proofs::Limit::over), unfolding(crate::specs::Next::next_of))]
    pub fn next_record(self, trace: Trace) -> Result<Option<Next>, ReadError>
        ensures { told_next self result ≡ next_of trace.entry.kinds.now trace.entry.bytes.now self }
    {
        let trace = trace.readable()?;
        let s = trace.bytes;
        if s.len() <= self.place {
            return Ok(None);
        }

        // Kept: by `checked_sub` or `saturating_sub` the compiler no longer knows what is left, and 1,000 records take 51,000 instructions for 35,000.
        let left = s.len() - self.place;
        if left < PROPERTIES {
            return Ok(None);
        }
        if left < RECORD_HEADER {
            return Err(ReadError::EofInHead);
        }
        let length = layout::u32_at(s, self.place + LENGTH).cast_signed();
        if length < 0 {
            return Err(ReadError::InvalidPayloadLength { length });
        }
        let size = length as usize;
        if left - RECORD_HEADER <= size {
            return Err(ReadError::EofInPayload);
        }
        Ok(Some(self.record_at(trace, size)))
    }
}
