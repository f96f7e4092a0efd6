// The span, the whole seek, the plain seek and the stepped seek.
ghost use Rattle.std.specs.Prelude.{◌≡◌};
ghost use Rattle.record.specs.Record.{plausible};
ghost use Rattle.span.specs.Met.{trace_of};
ghost use Rattle.span.specs.Span.{span_of, told_span};
ghost use Rattle.seek.specs.Seek.{seek_of, told_seek};
ghost use Rattle.seek.specs.Step.{told_state, start_at, told_start, step_at, told_step};
ghost use Rattle.plain.specs.Plain.{plain_of, told_plain};
ghost use Rattle.capi_seeks.specs.Seeks.{span_told, seek_told, plain_told, state_told, state_of, start_told, step_told};

use layout::{Refusal, Trace, TraceTooLong};
use resync::SearchError;
use seek::{SeekState, SeekStep, SeekTime};
use span::Span;

// The refusal's number or 0, whether there is a span, and the two times in milliseconds, which are after 2000 and so unsigned.
#[repr(C)]
#[derive(Clone, Copy, Debug, Default, PartialEq, Eq)]
pub struct SpanAnswer {
    pub refusal: u32,
    pub is_found: bool,
    pub first: u64,
    pub last: u64,
}

// The refusal's number or 0, whether a record was found, its offset, and the number of halvings.
#[repr(C)]
#[derive(Clone, Copy, Debug, Default, PartialEq, Eq)]
pub struct SeekAnswer {
    pub refusal: u32,
    pub is_found: bool,
    pub offset: usize,
    pub halvings: usize,
}

// The refusal's number or 0, whether a record was found, and its offset.
#[repr(C)]
#[derive(Clone, Copy, Debug, Default, PartialEq, Eq)]
pub struct PlainAnswer {
    pub refusal: u32,
    pub is_found: bool,
    pub offset: usize,
}

// A state of the stepped seek: searching between lo and hi, or scanning from a place.
#[repr(C)]
#[derive(Clone, Copy, Debug, Default, PartialEq, Eq)]
pub struct State {
    pub searching: bool,
    pub lo: usize,
    pub hi: usize,
    pub at: usize,
}

// The refusal's number or 0, and the state to start from.
#[repr(C)]
#[derive(Clone, Copy, Debug, Default, PartialEq, Eq)]
pub struct StartAnswer {
    pub refusal: u32,
    pub state: State,
}

// The refusal's number or 0, the answer (1 more, 2 scan, 3 done), the state to pass back, and of done whether a record was found
// and its offset.
#[repr(C)]
#[derive(Clone, Copy, Debug, Default, PartialEq, Eq)]
pub struct StepAnswer {
    pub refusal: u32,
    pub answer: u32,
    pub state: State,
    pub is_found: bool,
    pub offset: usize,
}

impl From<Result<Option<Span>, TraceTooLong>> for SpanAnswer {
    ghost from_gives = { λ s r. span_told r ≡ told_span s };

    fn from(s: Result<Option<Span>, TraceTooLong>) -> SpanAnswer {
        match s {
            Ok(Some(Span { first, last })) => SpanAnswer {
                refusal: 0,
                is_found: true,
                first,
                last,
            },
            Ok(None) => SpanAnswer::default(),
            Err(refusal) => SpanAnswer {
                refusal: refusal.number(),
                ..SpanAnswer::default()
            },
        }
    }
}

// The times of the first and of the last record.
#[unsafe(no_mangle)]
pub extern "C" fn zlf_span(kinds: &[u8; 256], trace: &[u8]) -> SpanAnswer
    ensures { span_told result ≡ span_of (trace_of plausible kinds.now trace.now) }
{
    let trace = Trace {
        kinds,
        bytes: trace,
    };
    span::time_span(trace).into()
}

impl From<Result<SeekTime, TraceTooLong>> for SeekAnswer {
    ghost from_gives = { λ s r. seek_told r ≡ told_seek s };

    fn from(s: Result<SeekTime, TraceTooLong>) -> SeekAnswer {
        match s {
            Ok(SeekTime { offset, halvings }) => SeekAnswer {
                refusal: 0,
                is_found: offset.is_some(),
                offset: offset.unwrap_or(0),
                halvings,
            },
            Err(refusal) => SeekAnswer {
                refusal: refusal.number(),
                ..SeekAnswer::default()
            },
        }
    }
}

// The first record at or after a time, in milliseconds.
#[unsafe(no_mangle)]
pub extern "C" fn zlf_seek(kinds: &[u8; 256], trace: &[u8], time: i64) -> SeekAnswer
    ensures { seek_told result ≡ seek_of (trace_of plausible kinds.now trace.now) time }
{
    let trace = Trace {
        kinds,
        bytes: trace,
    };
    seek::seek_time(trace, time).into()
}

impl From<Result<Option<usize>, TraceTooLong>> for PlainAnswer {
    ghost from_gives = { λ s r. plain_told r ≡ told_plain s };

    fn from(s: Result<Option<usize>, TraceTooLong>) -> PlainAnswer {
        match s {
            Ok(found) => PlainAnswer {
                refusal: 0,
                is_found: found.is_some(),
                offset: found.unwrap_or(0),
            },
            Err(refusal) => PlainAnswer {
                refusal: refusal.number(),
                ..PlainAnswer::default()
            },
        }
    }
}

// The first at or after a time by a walk over the records from the first one, each where the last ended: slow and easy to trust.
#[unsafe(no_mangle)]
pub extern "C" fn zlf_plain_seek(kinds: &[u8; 256], trace: &[u8], time: i64) -> PlainAnswer
    ensures { plain_told result ≡ plain_of (trace_of plausible kinds.now trace.now) time }
{
    let trace = Trace {
        kinds,
        bytes: trace,
    };
    plain::plain_seek(trace, time).into()
}

impl From<SeekState> for State {
    ghost from_gives = { λ s r. state_told r ≡ told_state s };

    fn from(s: SeekState) -> State {
        match s {
            SeekState::Searching { lo, hi } => State {
                searching: true,
                lo,
                hi,
                at: 0,
            },
            SeekState::Scanning { at } => State {
                at,
                ..State::default()
            },
        }
    }
}

impl From<Result<SeekState, TraceTooLong>> for StartAnswer {
    ghost from_gives = { λ s r. start_told r ≡ told_start s };

    fn from(s: Result<SeekState, TraceTooLong>) -> StartAnswer {
        match s {
            Ok(state) => StartAnswer {
                refusal: 0,
                state: state.into(),
            },
            Err(refusal) => StartAnswer {
                refusal: refusal.number(),
                ..StartAnswer::default()
            },
        }
    }
}

// Where a stepped seek starts.
#[unsafe(no_mangle)]
pub extern "C" fn zlf_seek_start(kinds: &[u8; 256], trace: &[u8]) -> StartAnswer
    ensures { start_told result ≡ start_at (trace_of plausible kinds.now trace.now) }
{
    let trace = Trace {
        kinds,
        bytes: trace,
    };
    seek::seek_start(trace).into()
}

// The state that a caller passes back.
impl From<State> for SeekState {
    ghost from_gives = { λ s r. r ≡ state_of s };

    fn from(s: State) -> SeekState {
        if s.searching {
            return SeekState::Searching { lo: s.lo, hi: s.hi };
        }
        SeekState::Scanning { at: s.at }
    }
}

impl From<Result<SeekStep, SearchError>> for StepAnswer {
    ghost from_gives = { λ s r. step_told r ≡ told_step s };

    fn from(s: Result<SeekStep, SearchError>) -> StepAnswer {
        match s {
            Ok(SeekStep::More { state }) => StepAnswer {
                answer: 1,
                state: state.into(),
                ..StepAnswer::default()
            },
            Ok(SeekStep::Scan { state }) => StepAnswer {
                answer: 2,
                state: state.into(),
                ..StepAnswer::default()
            },
            Ok(SeekStep::Done { found }) => StepAnswer {
                answer: 3,
                is_found: found.is_some(),
                offset: found.unwrap_or(0),
                ..StepAnswer::default()
            },
            Err(refusal) => StepAnswer {
                refusal: refusal.number(),
                ..StepAnswer::default()
            },
        }
    }
}

// One step of a seek.
#[unsafe(no_mangle)]
pub extern "C" fn zlf_seek_step(
    kinds: &[u8; 256],
    trace: &[u8],
    time: i64,
    state: State,
) -> StepAnswer
    ensures { step_told result ≡ step_at (trace_of plausible kinds.now trace.now) time (state_of state) }
{
    let trace = Trace {
        kinds,
        bytes: trace,
    };
    seek::seek_step(trace, time, state.into()).into()
}
