// Cases s, k, h, j and l: the span, the whole seek, the stepped seek driven to its end, one step from any state, and the plain seek.
use crate::out;
use crate::out::Or;
use layout::Trace;
use seek::{SEEK_SPAN, SeekState, SeekStep};
use std::fmt;
use std::fmt::Write;

// No stepped seek makes more steps: a trace's bytes, and some.
const MOST_STEPS: u64 = 1_073_742_000;

// The span.
pub fn span(out: &mut impl Write, trace: Trace) -> fmt::Result {
    match span::time_span(trace) {
        Ok(Some(s)) => write!(out, " {} {}", s.first, s.last),
        Ok(None) => out.write_str(" -"),
        Err(e) => out::refused(out, e),
    }
}

// The whole seek.
pub fn whole(out: &mut impl Write, trace: Trace, target: i64) -> fmt::Result {
    match seek::seek_time(trace, target) {
        Ok(s) => write!(out, " {} {}", Or(s.offset, '-'), s.halvings),
        Err(e) => out::refused(out, e),
    }
}

// The plain seek.
pub fn plain(out: &mut impl Write, trace: Trace, target: i64) -> fmt::Result {
    match plain::plain_seek(trace, target) {
        Ok(offset) => write!(out, " {}", Or(offset, '-')),
        Err(e) => out::refused(out, e),
    }
}

// A state after a word: with its bounds, or with its place.
fn state(out: &mut impl Write, word: &str, s: SeekState) -> fmt::Result {
    match s {
        SeekState::Searching { lo, hi } => write!(out, " {word} S {lo} {hi}"),
        SeekState::Scanning { at } => write!(out, " {word} C {at}"),
    }
}

// One step.
pub fn step(out: &mut impl Write, trace: Trace, target: i64, from: SeekState) -> fmt::Result {
    match seek::seek_step(trace, target, from) {
        Ok(SeekStep::More { state: s }) => state(out, "more", s),
        Ok(SeekStep::Scan { state: s }) => state(out, "scan", s),
        Ok(SeekStep::Done { found }) => write!(out, " done {}", Or(found, '-')),
        Err(e) => out::refused(out, e),
    }
}

// Whether a step from this state halves.
fn halves(s: SeekState) -> bool {
    match s {
        SeekState::Searching { lo, hi } => SEEK_SPAN < hi.saturating_sub(lo),
        SeekState::Scanning { .. } => false,
    }
}

// The stepped seek from a state on: where it ended, its halvings and its steps.
fn driven(out: &mut impl Write, trace: Trace, target: i64, start: SeekState) -> fmt::Result {
    let mut s = start;
    let mut halvings: u64 = 0;
    for steps in 0..MOST_STEPS {
        halvings += u64::from(halves(s));
        s = match seek::seek_step(trace, target, s) {
            Ok(SeekStep::Done { found }) => {
                return write!(out, " {} {halvings} {}", Or(found, '-'), steps + 1);
            }
            Ok(SeekStep::More { state } | SeekStep::Scan { state }) => state,
            Err(_) => return out.write_str(" R"),
        };
    }
    Ok(())
}

// The stepped seek from its start.
pub fn steps(out: &mut impl Write, trace: Trace, target: i64) -> fmt::Result {
    match seek::seek_start(trace) {
        Ok(start) => driven(out, trace, target, start),
        Err(e) => out::refused(out, e),
    }
}
