// Cases G, z, y and w: the regions that the Zniffer parser takes, and bytes to a fresh parser, one by one, at once and in pieces.
use crate::out;
use std::fmt;
use std::fmt::Write;
use zniffer::{Answer, Parser};
use zniffer_numbers::ParserResult;

// 1 for each byte that is a region.
pub fn regions(out: &mut impl Write) -> fmt::Result {
    out::digits(out, |region| u8::from(accepted(region)))
}

fn accepted(region: u8) -> bool {
    let ran = zniffer_core::run_fresh(&[0x21, 0x01, 0x00, 0x00, 0x00, region]);
    zniffer_numbers::goes_on(ran.result)
}

// The sum of a payload, which is the first bytes of an array.
fn sum(payload: &[u8; 255], length: u8) -> u64 {
    out::sum_of(payload, 0, usize::from(length)).unwrap_or(0)
}

// A result: C, F, I or X, its numbers, and the length and the sum of the payload that it hands out.
fn result(out: &mut impl Write, a: &Answer) -> fmt::Result {
    match a.result {
        ParserResult::ValidCommand { id, length } => {
            write!(out, " C {id} {length} {}", sum(&a.payload, length))
        }
        ParserResult::ValidFrame {
            timestamp,
            channel,
            speed,
            region,
            rssi,
            length,
        } => {
            let sum = sum(&a.payload, length);
            write!(
                out,
                " F {timestamp} {channel} {speed} {region} {rssi} {length} {sum}"
            )
        }
        ParserResult::InvalidFrame => out.write_str(" X"),
        ParserResult::IncompleteFrame => out.write_str(" I"),
    }
}

// The parser that is left, number for number in the order of the oracle's line. The Rust counts the payload bytes to come, the
// port those that are there.
fn left(out: &mut impl Write, p: &Parser) -> fmt::Result {
    write!(
        out,
        " {} {} {} {} {} {}",
        p.state,
        p.command_id,
        p.length,
        p.length.saturating_sub(p.count),
        p.frame_type,
        u8::from(p.timestamp_state)
    )?;
    write!(
        out,
        " {} {} {} {} {} {} {}",
        p.region,
        p.channel,
        p.speed,
        p.timestamp,
        p.rssi,
        p.count,
        sum(&p.payload, p.count)
    )
}

// The parser after so many bytes, one by one.
fn fed(s: &[u8]) -> Parser {
    let mut p = zniffer::fresh();
    for &b in s {
        zniffer_lent::parse(&mut p, b);
    }
    p
}

// A line for each result but IncompleteFrame: the place of its byte, and the result.
fn results(out: &mut impl Write, s: &[u8]) -> fmt::Result {
    let mut p = zniffer::fresh();
    for (i, &b) in s.iter().enumerate() {
        let answer = zniffer_lent::parse(&mut p, b);
        if !zniffer_numbers::goes_on(answer.result) {
            write!(out, "\n  {i}")?;
            result(out, &answer)?;
        }
    }
    Ok(())
}

// Bytes one by one: the parser that is left, and the results on the way.
pub fn one_by_one(out: &mut impl Write, s: &[u8]) -> fmt::Result {
    left(out, &fed(s))?;
    results(out, s)
}

// Bytes at once, to a parser that is lent: the result and the bytes used; then the parser that they leave.
pub fn at_once(out: &mut impl Write, s: &[u8]) -> fmt::Result {
    let used = zniffer_lent::parse_all(s);
    result(out, &used.answer)?;
    write!(out, " {}", used.used)?;
    let ran = zniffer::run(zniffer::fresh(), s);
    left(out, &ran.parser)
}

// The bytes of a piece, as many as are there.
fn part(s: &[u8], at: usize, len: usize) -> &[u8] {
    match s.get(at..) {
        Some(rest) => rest.get(..len).unwrap_or(rest),
        None => s,
    }
}

// Bytes in pieces, to a parser that goes on: a line for each call, the bytes used, the result, and the parser that is left. Each call
// takes a byte, or a piece without any, whose length has two: there are no more calls than bytes.
pub fn in_pieces(out: &mut impl Write, s: &[u8]) -> fmt::Result {
    let mut p = zniffer::fresh();
    let mut at: usize = 0;
    let mut len: usize = 0;
    for _ in 0..s.len() {
        if s.len() <= at {
            return Ok(());
        }
        // Where no bytes are left of the last piece, the next one's length stands before it.
        if len == 0 {
            len = usize::from(layout::u16_at(s, at));
            at += 2;
        }
        let used = zniffer_lent::parse_bytes(&mut p, part(s, at, len));
        write!(out, "\n  {}", used.used)?;
        result(out, &used.answer)?;
        left(out, &p)?;
        at = at.saturating_add(used.used);
        len = len.saturating_sub(used.used);
    }
    Ok(())
}
