// Opening a trace, as a cursor and in sequence, and the next record in sequence.
ghost use Rattle.std.specs.Prelude.{◌≡◌};
ghost use Rattle.seam.specs.Opening.{opening_of, told_opening as toldCursor};
ghost use Rattle.reader.specs.Opening.{opened, told_opening as toldReader};
ghost use Rattle.reader.specs.Next.{no_record, next_of, told_next};
ghost use Rattle.capi_records.specs.Opens.{opening_told, sequence_told, next_told, reader_at};

use layout::{Refusal, Trace};
use reader::{Next, OpenError as SequenceError, Opened, ReadError, ZlfReader};
use seam::OpenError;

// The refusal's number or 0, and the version found.
#[repr(C)]
#[derive(Clone, Copy)]
pub struct CursorOpening {
    pub refusal: u32,
    pub version: u32,
}

// The refusal's number or 0, the version found, and the reader's place and count.
#[repr(C)]
#[derive(Clone, Copy)]
pub struct SequenceOpening {
    pub refusal: u32,
    pub version: u32,
    pub place: usize,
    pub count: u64,
}

// The refusal's number or 0, whether there is a record, its parts, the negative length of refusal 8, and the reader's place and
// count afterwards.
#[repr(C)]
#[derive(Clone, Copy, Default)]
pub struct NextRecord {
    pub refusal: u32,
    pub is_record: bool,
    pub offset: usize,
    pub ticks: u64,
    pub outgoing: bool,
    pub session: u8,
    pub end_byte: u8,
    pub kind: u8,
    pub payload: usize,
    pub size: usize,
    pub negative: i32,
    pub place: usize,
    pub count: u64,
}

impl From<Result<u32, OpenError>> for CursorOpening {
    ghost from_gives = { λ opening answer. opening_told answer ≡ toldCursor opening };

    fn from(opening: Result<u32, OpenError>) -> Self {
        match opening {
            Ok(version) => CursorOpening {
                refusal: 0,
                version,
            },
            Err(error) => CursorOpening {
                refusal: error.number(),
                version: match error {
                    OpenError::OtherVersion { version } => version,
                    _ => 0,
                },
            },
        }
    }
}

// Opens a trace as a cursor: only the version is checked.
#[unsafe(no_mangle)]
pub extern "C" fn zlf_open(trace: &[u8], version: u32) -> CursorOpening
    ensures { opening_told result ≡ opening_of trace.now version }
{
    seam::open(trace, version).into()
}

impl From<Result<Opened, SequenceError>> for SequenceOpening {
    ghost from_gives = { λ opening answer. sequence_told answer ≡ toldReader opening };

    fn from(opening: Result<Opened, SequenceError>) -> Self {
        match opening {
            Ok(Opened { version, reader }) => SequenceOpening {
                refusal: 0,
                version,
                place: reader.place,
                count: reader.count,
            },
            Err(refusal) => SequenceOpening {
                refusal: refusal.number(),
                version: match refusal {
                    SequenceError::InvalidZlfVersion { version } => version,
                    _ => 0,
                },
                place: 0,
                count: 0,
            },
        }
    }
}

// Opens a trace in sequence: the header's sum is checked, and then the version.
#[unsafe(no_mangle)]
pub extern "C" fn zlf_open_sequence(trace: &[u8], version: u32) -> SequenceOpening
    ensures { sequence_told result ≡ opened trace.now version }
{
    ZlfReader::new(trace, version).into()
}

// No record, and the reader as it was given.
fn no_record(refusal: u32, negative: i32, reader: ZlfReader) -> NextRecord
    ensures { next_told result ≡ no_record refusal negative reader }
{
    NextRecord {
        refusal,
        negative,
        place: reader.place,
        count: reader.count,
        ..NextRecord::default()
    }
}

fn next_numbers(reader: ZlfReader, next: Result<Option<Next>, ReadError>) -> NextRecord
    ensures { next_told result ≡ told_next reader next }
{
    match next {
        Ok(Some(Next { record, reader })) => NextRecord {
            refusal: 0,
            is_record: true,
            offset: record.offset,
            ticks: record.raw_ticks,
            outgoing: record.is_outcome,
            session: record.session_id,
            end_byte: record.end,
            kind: record.kind,
            payload: record.payload_offset,
            size: record.payload_len,
            negative: 0,
            place: reader.place,
            count: reader.count,
        },
        Ok(None) => no_record(0, 0, reader),
        Err(refusal) => {
            let negative = match refusal {
                ReadError::InvalidPayloadLength { length } => length,
                _ => 0,
            };
            no_record(refusal.number(), negative, reader)
        }
    }
}

// The next record in sequence, of a reader at a place with a count.
#[unsafe(no_mangle)]
pub extern "C" fn zlf_next(kinds: &[u8; 256], trace: &[u8], place: usize, count: u64) -> NextRecord
    ensures { next_told result ≡ next_of kinds.now trace.now (reader_at place count) }
{
    let reader = ZlfReader { place, count };
    next_numbers(
        reader,
        reader.next_record(Trace {
            kinds,
            bytes: trace,
        }),
    )
}
