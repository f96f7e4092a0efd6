// The seeks in a trace by time: seeks of cursor.rs.
//
// A seek needs no index: it halves the trace, with a search for a record at each middle, down to a short span, and walks
// the records from there. The stepped seek is the same, a halving or a record at a time, for a caller that has to fetch the
// bytes before they are read.
#![tactic(auto)]

ghost use Rattle.std.specs.Prelude.{◌≡◌, ◌-◌, ◌≤◌, pos, length, Ok};
ghost use Rattle.std.specs.Int.Signed.{lt_z};
ghost use Rattle.record.specs.Record.{plausible};
ghost use Rattle.span.specs.Met.{trace_of, meet_in, told_met};
ghost use Rattle.seek.specs.Seek.{middle, next_lo, next_hi, narrowed, Keeps, walked, seek_of, told_seek};
ghost use Rattle.seek.specs.Step.{start_at, told_start, step_of, step_at, told_step};

use layout::{Readable, Trace, TraceTooLong, ZLF_HEADER_SIZE};
use resync::SearchError;
use span::Met;

// Span the search narrows to before walking records one by one.
pub const SEEK_SPAN: usize = 65_536;

// How far a stepped seek has narrowed.
#[derive(Clone, Copy, Debug, PartialEq, Eq)]
pub enum SeekState {
    // Halving the trace to bracket the target.
    Searching { lo: usize, hi: usize },
    // Walking records to the first one at or after the target.
    Scanning { at: usize },
}

// The outcome of one step of a seek.
#[derive(Clone, Copy, Debug, PartialEq, Eq)]
pub enum SeekStep {
    // Keep going from this state.
    More { state: SeekState },
    // Bracketing is done; scan from here.
    Scan { state: SeekState },
    // The record's place, or none if the time is past the end.
    Done { found: Option<usize> },
}

// The outcome of a whole seek, and how many halvings it made.
#[derive(Clone, Copy, Debug, PartialEq, Eq)]
pub struct SeekTime {
    pub offset: Option<usize>,
    pub halvings: usize,
}

// The bounds between which a seek halves.
#[derive(Clone, Copy)]
struct Bounds {
    lo: usize,
    hi: usize,
}

// Where the halvings leave lo, and how many there were.
#[derive(Clone, Copy)]
struct Narrowed {
    lo: usize,
    halvings: usize,
}

// Whether a record's time is earlier than a target: none is earlier than a negative one, and another compares unsigned.
pub fn is_earlier(millis: u64, target: i64) -> bool
    ensures { result ≡ lt_z (pos millis) target }
{
    u64::try_from(target).is_ok_and(|target| millis < target)
}

impl Bounds {
    fn span(self) -> usize
        ensures { result ≡ self.hi - self.lo }
    {
        span::distance(self.lo, self.hi)
    }

    fn middle(self) -> usize
        ensures { result ≡ middle self.lo self.hi }
    {
        self.lo + self.span() / 2
    }

    // The bounds after a halving whose search from the middle met this. A record from there on ends above lo, so the Rust's
    // test for one that does not is left out.
    fn halved(self, met: Option<Met>, target: i64) -> Bounds
        ensures lo { result.lo ≡ next_lo target self.lo (told_met (Ok met)) }
        ensures hi { result.hi ≡ next_hi target (middle self.lo self.hi) self.hi (told_met (Ok met)) }
    {
        match met {
            Some(met) if is_earlier(met.unix_millis, target) => Bounds {
                lo: met.next_offset,
                ..self
            },
            _ => Bounds {
                hi: self.middle(),
                ..self
            },
        }
    }
}

// A step of the halving.
fn search_step(trace: Readable, target: i64, bounds: Bounds) -> Result<SeekStep, SearchError>
    ensures { told_step result ≡ step_of (meet_in trace.entry.kinds.now trace.entry.bytes.now) (length trace.entry.bytes.now) target (SeekState.Searching bounds.lo bounds.hi) }
{
    if bounds.span() <= SEEK_SPAN {
        return Ok(SeekStep::Scan {
            state: SeekState::Scanning { at: bounds.lo },
        });
    }
    let met = span::record_from(trace, bounds.middle())?;
    let Bounds { lo, hi } = bounds.halved(met, target);
    Ok(SeekStep::More {
        state: SeekState::Searching { lo, hi },
    })
}

// A step of the walk.
fn scan_step(trace: Readable, target: i64, at: usize) -> Result<SeekStep, SearchError>
    ensures { told_step result ≡ step_of (meet_in trace.entry.kinds.now trace.entry.bytes.now) (length trace.entry.bytes.now) target (SeekState.Scanning at) }
{
    if trace.bytes.len() <= at {
        return Ok(SeekStep::Done { found: None });
    }
    let Some(met) = span::record_from(trace, at)? else {
        return Ok(SeekStep::Done { found: None });
    };
    if is_earlier(met.unix_millis, target) {
        return Ok(SeekStep::More {
            state: SeekState::Scanning {
                at: met.next_offset,
            },
        });
    }
    Ok(SeekStep::Done {
        found: Some(met.offset),
    })
}

// One step of a time seek, so a caller that must fetch bytes can drive the search and prefetch each probe as it goes.
pub fn seek_step(trace: Trace, time_ms: i64, state: SeekState) -> Result<SeekStep, SearchError>
    ensures { told_step result ≡ step_at (trace_of plausible trace.entry.kinds.now trace.entry.bytes.now) time_ms state }
{
    let trace = trace.readable()?;
    match state {
        SeekState::Searching { lo, hi } => search_step(trace, time_ms, Bounds { lo, hi }),
        SeekState::Scanning { at } => scan_step(trace, time_ms, at),
    }
}

// Where a stepped seek should start.
pub fn seek_start(trace: Trace) -> Result<SeekState, TraceTooLong>
    ensures { told_start result ≡ start_at (trace_of plausible trace.entry.kinds.now trace.entry.bytes.now) }
{
    let hi = trace.bytes.len();
    let lo = span::first_record(trace)?.unwrap_or(ZLF_HEADER_SIZE);
    Ok(SeekState::Searching { lo, hi })
}

// Narrows to a small span by halving; bounds that cross end it.
fn narrow(trace: Readable, target: i64, first: usize) -> Narrowed
    requires { first ≤ length trace.bytes.now }
    ensures keeps { Keeps result (narrowed (meet_in trace.entry.kinds.now trace.entry.bytes.now) target (length trace.entry.bytes.now) first (length trace.entry.bytes.now)) }
    ensures inside { result.lo ≤ length trace.entry.bytes.now }
{
    let mut bounds = Bounds {
        lo: first,
        hi: trace.bytes.len(),
    };
    let mut halvings = 0;
    while SEEK_SPAN < bounds.span() {
        bounds = bounds.halved(span::meet(trace, bounds.middle()), target);
        halvings += 1;
    }
    Narrowed {
        lo: bounds.lo,
        halvings,
    }
}

// Walks from a place to the first record at or after the target; the halvings' hi no longer counts.
fn walk(trace: Readable, target: i64, from: usize) -> Option<usize>
    requires { from ≤ length trace.bytes.now }
    ensures { result ≡ walked (meet_in trace.entry.kinds.now trace.entry.bytes.now) (length trace.entry.bytes.now) target (length trace.entry.bytes.now) from }
{
    let mut at = from;
    loop {
        let Some(met) = span::meet(trace, at) else {
            return None;
        };
        if !is_earlier(met.unix_millis, target) {
            return Some(met.offset);
        }
        at = met.next_offset;
    }
}

// Offset of the first record at or after a time, with the number of halvings. Times are taken to be non-decreasing.
pub fn seek_time(trace: Trace, time_ms: i64) -> Result<SeekTime, TraceTooLong>
    ensures { told_seek result ≡ seek_of (trace_of plausible trace.entry.kinds.now trace.entry.bytes.now) time_ms }
{
    let trace = trace.readable()?;
    let Some(first) = span::meet(trace, ZLF_HEADER_SIZE) else {
        return Ok(SeekTime {
            offset: None,
            halvings: 0,
        });
    };
    let Narrowed { lo, halvings } = narrow(trace, time_ms, first.offset);
    Ok(SeekTime {
        offset: walk(trace, time_ms, lo),
        halvings,
    })
}
