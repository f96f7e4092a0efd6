// The port's side of the comparison with the Rust: reads cases on standard input, and answers each in the oracle's lines
// (compare/FORMAT.md). Where a case is unknown or cut off it says so, and stops.
#![tactic(auto)]

mod bodies;
mod cases;
mod leaves;
mod out;
mod pages;
mod records;
mod seeks;
mod sequence;
mod stream;

ghost use Rattle.std.specs.Prelude.{◌≡◌, IfOk, vec_len};

use crate::cases::Case;
use crate::out::Lines;
use layout::Trace;
use std::alloc::{AllocError, Global};
use std::fmt;
use std::fmt::Write;
use std::process::ExitCode;

// The cases, of which there may be so many bytes.
fn room(alloc: Global) -> Result<Vec<u8>, AllocError>
    ensures { IfOk result (λ bytes. vec_len bytes ≡ 4194304) }
{
    vec![in alloc; 0; 4194304]
}

// What the lines of a case say after its letter.
fn answer(out: &mut impl Write, case: Case, version: u32, trace: Trace) -> fmt::Result {
    match case {
        Case::Kinds { version, kinds } => leaves::kinds(out, version, kinds),
        Case::Regions => stream::regions(out),
        Case::Time { raw } => leaves::time(out, raw),
        Case::Speed { channel, region } => leaves::speed(out, channel, region),
        Case::Speeds => leaves::speeds(out),
        Case::Body { bytes } => bodies::body(out, bytes),
        Case::Payload { bytes } => bodies::payload(out, bytes),
        Case::OneByOne { bytes } => stream::one_by_one(out, bytes),
        Case::AtOnce { bytes } => stream::at_once(out, bytes),
        Case::InPieces { bytes } => stream::in_pieces(out, bytes),
        Case::Trace { bytes } => write!(out, " {}", bytes.len()),
        Case::Byte { place, .. } => write!(out, " {place}"),
        Case::Record { offset } => records::record(out, trace, offset),
        Case::Search { from, window } => records::search(out, trace, from, window),
        Case::RecordTime { from } => records::time(out, trace, from),
        Case::Sum { bytes } => sequence::sum(out, bytes),
        Case::PartSum { from, to } => sequence::part_sum(out, trace.bytes, from, to),
        Case::Open => pages::opened(out, version, trace.bytes),
        Case::OpenReader => sequence::opened(out, version, trace),
        Case::ReadFrom { place } => sequence::from(out, place, trace),
        Case::Span => seeks::span(out, trace),
        Case::Seek { target } => seeks::whole(out, trace, target),
        Case::SteppedSeek { target } => seeks::steps(out, trace, target),
        Case::PlainSeek { target } => seeks::plain(out, trace, target),
        Case::SeekStep { target, state } => seeks::step(out, trace, target, state),
        Case::Page { offset, count } => pages::page(out, trace, offset, count),
        Case::Pages { offset, count } => pages::pages(out, trace, offset, count),
        Case::Seam { place } => pages::seam(out, trace, place),
    }
}

// Answers the cases one after the other, up to the end or to one that is unknown or cut off, and says where it stopped there. The
// trace is the part of them that the last case T has.
fn answers(out: &mut impl Write, cases: &mut [u8]) -> fmt::Result {
    let mut version = 0;
    let mut kinds = [0; 256];
    let mut part = 0..0;
    let mut count: u64 = 0;
    let mut at = 0;
    while at < cases.len() {
        let Some((case, len)) = Case::read(&cases[at..]) else {
            writeln!(out, "unknown or cut off at {at}")?;
            break;
        };
        let trace = Trace {
            kinds: &kinds,
            bytes: &cases[part.start..part.end],
        };
        write!(out, "{}", char::from(cases[at]))?;
        answer(out, case, version, trace)?;
        writeln!(out)?;
        at += len;
        count += 1;
        // What a case sets, it sets for the cases after it.
        match case {
            Case::Kinds {
                version: expected,
                kinds: table,
            } => {
                version = expected;
                kinds = *table;
            }
            Case::Trace { bytes } => part = at.saturating_sub(bytes.len())..at,
            Case::Byte { place, value } => {
                if place < part.end - part.start {
                    cases[part.start + place] = value;
                }
            }
            _ => {}
        }
    }
    writeln!(out, "end {count}")
}

fn run(rt: &impl Print, cases: &mut [u8]) -> std::io::Result<()> {
    let mut lines = Lines::new(rt);
    let _ = answers(&mut lines, cases);
    lines.flush()
}

// Reads the cases, and answers them.
fn replayed(rt: &(impl Input + Print + AllocGlobal)) -> std::io::Result<()> {
    let mut cases = room(rt.alloc())?;
    let n = streams::read_full(&mut rt.reader(), &mut cases);
    run(rt, &mut cases[..n])
}

fn main(rt: HostRuntime) -> std::io::Result<ExitCode> {
    streams::ended(replayed(&rt))
}
