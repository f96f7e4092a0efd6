// Cases b and p: a PTI body, and a PTI payload with its bodies.
use crate::out;
use crate::out::Or;
use bracket::Body;
use pti::PtiFrame;
use std::fmt;
use std::fmt::Write;
use std::iter::successors;

// A frame: its direction, its numbers, and the length and the sum of its MPDU, which stands in these bytes.
pub fn frame(out: &mut impl Write, f: PtiFrame, bytes: &[u8]) -> fmt::Result {
    let side = if f.direction == 0 { 'R' } else { 'T' };
    write!(
        out,
        " {side} {} {} {} {} {} {} {}",
        f.region,
        f.channel,
        f.speed,
        f.rssi,
        f.beam_count,
        f.mpdu_len,
        Or(out::sum_of(bytes, f.mpdu, f.mpdu_len), '?')
    )
}

// One body.
pub fn body(out: &mut impl Write, bytes: &[u8]) -> fmt::Result {
    match pti::parse_record(bytes) {
        Some(f) => frame(out, f, bytes),
        None => out.write_str(" -"),
    }
}

// One payload: the number of its bodies, and a line for each, its place, its length and its frame. It has no more bodies than bytes.
pub fn payload(out: &mut impl Write, bytes: &[u8]) -> fmt::Result {
    let first = bracket::next_record(bytes, 0);
    let next = |b: &Body| bracket::next_record(bytes, b.next);
    let bodies = || successors(first, &next).take(bytes.len());
    write!(out, " {}", bodies().count())?;
    for b in bodies() {
        write!(out, "\n  {} {}", b.at, b.len)?;
        if let Some(part) = out::part(bytes, b.at, b.len) {
            body(out, part)?;
        }
    }
    Ok(())
}
