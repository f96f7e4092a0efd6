// Opening a trace as a cursor, and the check that valid records follow one another from a place to the last byte: cursor.rs.
#![tactic(auto)]

ghost use Rattle.std.specs.Prelude.{◌≡◌};
ghost use Rattle.record.specs.Record.{plausible};
ghost use Rattle.seam.specs.Opening.{opening_of, told_opening, open_refusal};
ghost use Rattle.seam.specs.Seam.{seam_at, told_seam, seam_refusal};
ghost use Rattle.seam.specs.declared.SeamError.TheVariants.{TraceTooLong};

use layout::{Readable, Refusal, TRACE_LIMIT, Trace, TraceTooLong, ZLF_HEADER_SIZE};

// Why a trace is not opened.
#[derive(Clone, Copy, Debug, PartialEq, Eq)]
pub enum OpenError {
    TraceTooLong,
    TraceTooShort,
    OtherVersion { version: u32 },
}

impl Refusal for OpenError {
    ghost number = { open_refusal };

    fn number(self) -> u32 {
        match self {
            OpenError::TraceTooLong => 1,
            OpenError::TraceTooShort => 2,
            OpenError::OtherVersion { .. } => 4,
        }
    }
}

// What the seam check answers.
#[derive(Clone, Copy, Debug, PartialEq, Eq)]
pub enum Seam {
    // Valid records follow one another from the place to the last byte.
    Unbroken { records: usize },
    // The first offset without a valid record, and the number of records before it.
    Broken { place: usize, records: usize },
}

// Why it gives none.
#[derive(Clone, Copy, Debug, PartialEq, Eq)]
pub enum SeamError {
    TraceTooLong,
    PlaceOutside,
}

impl Refusal for SeamError {
    ghost number = { seam_refusal };

    fn number(self) -> u32 {
        match self {
            SeamError::TraceTooLong => 1,
            SeamError::PlaceOutside => 6,
        }
    }
}

impl From<TraceTooLong> for SeamError {
    ghost from_gives = { λ _ e. e ≡ TraceTooLong };

    fn from(_refusal: TraceTooLong) -> Self {
        SeamError::TraceTooLong
    }
}

// Opens a trace: only the version is checked, against the one expected. The version found.
#[tactic(auto, unfolding(crate::specs::Opening::opening_of))]
pub fn open(bytes: &[u8], version: u32) -> Result<u32, OpenError>
    ensures { told_opening result ≡ opening_of bytes.now version }
{
    if TRACE_LIMIT < bytes.len() {
        return Err(OpenError::TraceTooLong);
    }
    if bytes.len() < ZLF_HEADER_SIZE {
        return Err(OpenError::TraceTooShort);
    }
    let found = layout::u32_at(bytes, 0);
    if found != version {
        return Err(OpenError::OtherVersion { version: found });
    }
    Ok(found)
}

// Whether valid records follow one another from a place to the last byte, and how many.
pub fn seam_check(trace: Trace, place: usize) -> Result<Seam, SeamError>
    ensures { told_seam result ≡ seam_at plausible trace.entry.kinds.now trace.entry.bytes.now place }
{
    seam_at(trace.readable()?, place)
}

// The same of a trace within the limit.
fn seam_at(trace: Readable, place: usize) -> Result<Seam, SeamError>
    ensures { told_seam result ≡ seam_at plausible trace.entry.kinds.now trace.entry.bytes.now place }
{
    let len = trace.bytes.len();
    if !(ZLF_HEADER_SIZE..=len).contains(&place) {
        return Err(SeamError::PlaceOutside);
    }
    let mut at = place;
    let mut records = 0;
    loop {
        let Some(header) = record::record_at(trace, at) else {
            // No record begins here: the trace has ended, or is broken.
            if at < len {
                return Ok(Seam::Broken { place: at, records });
            }
            return Ok(Seam::Unbroken { records });
        };
        at = header.next_offset;
        records += 1;
    }
}
