// Searches, span and seeks.
use crate::say;
use layout::TraceTooLong;
use resync::{Search, SearchError};
use seek::{SeekState, SeekStep, SeekTime};
use span::Span;
use std::io;

// What a search found, or none, and how many offsets it judged.
pub fn search(rt: &impl Print, answer: Result<Search, SearchError>) -> io::Result<()> {
    match answer {
        Ok(Search { offset, judged }) => {
            say::found(rt, offset)?;
            print!(rt; " {judged}")
        }
        Err(e) => say::refused(rt, e),
    }
}

pub fn span(rt: &impl Print, answer: Result<Option<Span>, TraceTooLong>) -> io::Result<()> {
    match answer {
        Ok(Some(Span { first, last })) => print!(rt; " {first} {last}"),
        _ => print!(rt; " none"),
    }
}

// What a whole seek found, or none, and its number of halvings.
pub fn whole(rt: &impl Print, answer: Result<SeekTime, TraceTooLong>) -> io::Result<()> {
    match answer {
        Ok(SeekTime { offset, halvings }) => {
            say::found(rt, offset)?;
            print!(rt; " {halvings}")
        }
        Err(e) => say::refused(rt, e),
    }
}

// A state: S with lo and hi, or C with the place to scan from.
fn state(rt: &impl Print, state: SeekState) -> io::Result<()> {
    match state {
        SeekState::Searching { lo, hi } => print!(rt; " S {lo} {hi}"),
        SeekState::Scanning { at } => print!(rt; " C {at}"),
    }
}

pub fn step(rt: &impl Print, answer: Result<SeekStep, SearchError>) -> io::Result<()> {
    match answer {
        Ok(SeekStep::More { state: then }) => {
            print!(rt; " more")?;
            state(rt, then)
        }
        Ok(SeekStep::Scan { state: then }) => {
            print!(rt; " scan")?;
            state(rt, then)
        }
        Ok(SeekStep::Done { found }) => {
            print!(rt; " done")?;
            say::found(rt, found)
        }
        Err(e) => say::refused(rt, e),
    }
}
