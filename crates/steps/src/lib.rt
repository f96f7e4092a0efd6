// The rows of the records from a place on, by value and one at a time: how a page is filled.
#![tactic(auto)]

ghost use Rattle.std.specs.Prelude.{◌≡◌, ◌+◌, ◌≤◌, ◌<◌, pos, Ok, IfSome};
ghost use Rattle.std.specs.Option.{option_map};
ghost use Rattle.record.specs.Record.{plausible, record_at, told_record};
ghost use Rattle.rows.specs.Rows.{row_of, payload_at};
ghost use Rattle.steps.specs.declared.StepError.TheVariants.{TraceTooLong};
ghost use Rattle.steps.specs.Step.{latest, Sound, unsound, gap_of, before_of, moved_to, start_place, row_step_at, step_of, told_step};

use layout::{RECORD_HEADER, Readable, Trace, TraceTooLong};
use pti::PtiFrame;
use record::RecordHeader;
use rows::{NextFrame, Row};

// The largest time that a valid record can have, in milliseconds.
const LATEST: u64 = 4_112_352_000_000;

// Where filling stands: a record, the index in its payload, the next row's position, and the time of the row before, if there is one.
#[derive(Clone, Copy, Debug, PartialEq, Eq)]
pub struct Place {
    pub offset: usize,
    pub index: usize,
    pub position: usize,
    pub previous: Option<u64>,
}

impl Place {
    // The first place of a record, with no time before.
    pub fn start(offset: usize) -> Place
        ensures { result ≡ start_place offset }
    {
        Place {
            offset,
            index: 0,
            position: 0,
            previous: None,
        }
    }

    // Whether no page comes to the place.
    fn is_unsound(self) -> bool
        ensures { result ≡ unsound self }
    {
        (self.index < self.position) | self.previous.is_some_and(|before| LATEST < before)
    }

    // The first place of a record that follows, with the same time before.
    fn moved_to(self, offset: usize) -> Place
        ensures { result ≡ moved_to self offset 0 0 }
    {
        Place {
            previous: self.previous,
            ..Place::start(offset)
        }
    }
}

// A record's header and its payload.
#[derive(Clone, Copy, Debug, PartialEq, Eq)]
pub struct ValidRecord<'a> {
    pub header: RecordHeader,
    pub payload: &'a [u8],
}

// A row, or none where no valid record comes any more, and the place after it.
#[derive(Clone, Copy, Debug, PartialEq, Eq)]
pub struct Step {
    pub row: Option<Row>,
    pub next: Place,
}

// Why there is no step: a trace over the limit, or a place that no page comes to. The latter is none of the refusals that have a number.
#[derive(Clone, Copy, Debug, PartialEq, Eq)]
pub enum StepError {
    TraceTooLong,
    NoSuchPlace,
}

impl From<TraceTooLong> for StepError {
    ghost from_gives = { λ _ e. e ≡ TraceTooLong };

    fn from(_refusal: TraceTooLong) -> Self {
        StepError::TraceTooLong
    }
}

// The valid record at an offset, if there is one.
pub fn valid_record<'a>(trace: Readable<'a>, offset: usize) -> Option<ValidRecord<'a>>
    ensures header { told_record (Ok (option_map (λ r. r.header) result)) ≡ record_at plausible trace.entry.kinds.now trace.entry.bytes.now offset }
    ensures payload { IfSome result (λ r. r.payload.now ≡ payload_at trace.entry.bytes.now offset) }
{
    let Some(header) = record::record_at(trace, offset) else {
        return None;
    };
    let first = offset + RECORD_HEADER;
    Some(ValidRecord {
        header,
        payload: &trace.bytes[first..first + header.payload_len],
    })
}

// The time since the row before, or 0 where there is none.
fn gap_of(previous: Option<u64>, now: u64) -> i64
    requires before { IfSome previous (λ before. before ≤ latest) }
    requires now { now ≤ latest }
    ensures { result ≡ gap_of (before_of previous) (pos now) }
{
    match previous {
        None => 0,
        Some(before) => now as i64 - before as i64,
    }
}

// A frame's row, with the time of its record.
fn row_of(place: Place, millis: u64, frame: PtiFrame) -> Row
    requires sound { Sound place }
    requires timed { millis ≤ latest }
    requires inside { place.offset + 13 + frame.mpdu < 18446744073709551616 }
    ensures { result ≡ row_of place.offset place.position (pos millis) (gap_of (before_of place.previous) (pos millis)) frame }
{
    Row {
        record: place.offset,
        position: place.position,
        millis: millis as i64,
        gap: gap_of(place.previous, millis),
        direction: frame.direction,
        region: frame.region,
        channel: frame.channel,
        speed: frame.speed,
        rssi: frame.rssi,
        beam_count: frame.beam_count,
        mpdu: place.offset + RECORD_HEADER + frame.mpdu,
        mpdu_len: frame.mpdu_len,
    }
}

// A frame's row, and the place after it.
fn row_step(place: Place, millis: u64, found: NextFrame) -> Step
    requires sound { Sound place }
    requires timed { millis ≤ latest }
    requires inside { place.offset + 13 + found.frame.mpdu < 18446744073709551616 }
    requires further { place.position < found.next }
    ensures { told_step place (Ok result) ≡ row_step_at place (pos millis) millis found.frame found.next }
{
    Step {
        row: Some(row_of(place, millis, found.frame)),
        next: Place {
            offset: place.offset,
            index: found.next,
            position: place.position + 1,
            previous: Some(millis),
        },
    }
}

// The next row from a place that a page comes to, in its record or in those that follow it, and the place after it.
fn step_from(trace: Readable, place: Place) -> Step
    requires { Sound place }
    ensures { told_step place (Ok result) ≡ step_of plausible trace.entry.kinds.now trace.entry.bytes.now place }
{
    let mut at = place;
    loop {
        let Some(ValidRecord { header, payload }) = valid_record(trace, at.offset) else {
            return Step {
                row: None,
                next: at,
            };
        };
        let found = rows::next_frame(payload, header.kind, header.is_outcome, at.index);
        if let Some(found) = found {
            return row_step(at, header.unix_millis, found);
        }
        at = at.moved_to(header.next_offset);
    }
}

// The next row from any place of a trace within the limit. A place that no page comes to is told as such.
pub fn step_within(trace: Readable, place: Place) -> Result<Step, StepError>
    ensures { told_step place result ≡ step_of plausible trace.entry.kinds.now trace.entry.bytes.now place }
{
    if place.is_unsound() {
        return Err(StepError::NoSuchPlace);
    }
    Ok(step_from(trace, place))
}

// The same of any trace: one over the limit is refused.
pub fn step_at(trace: Trace, place: Place) -> Result<Step, StepError>
    ensures { told_step place result ≡ step_of plausible trace.entry.kinds.now trace.entry.bytes.now place }
{
    step_within(trace.readable()?, place)
}
