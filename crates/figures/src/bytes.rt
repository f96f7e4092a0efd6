// The Zniffer's bytes, to a fresh parser.
use crate::{made, say};
use std::io;
use text::Out;
use zniffer::Used;
use zniffer_numbers::ParserResult;

// What the bytes give: C with the id, F with time, channel, speed, region and RSSI, both with the payload; I (more bytes are wanted) or X (a bad
// byte); then how many bytes were used.
pub fn given(rt: &impl Print, u: Used) -> io::Result<()> {
    let payload = u.answer.payload;
    match u.answer.result {
        ParserResult::IncompleteFrame => print!(rt; " I")?,
        ParserResult::InvalidFrame => print!(rt; " X")?,
        ParserResult::ValidCommand { id, length } => {
            print!(rt; " C {id}")?;
            say::hex(rt, &payload[..usize::from(length)])?;
        }
        ParserResult::ValidFrame {
            timestamp,
            channel,
            speed,
            region,
            rssi,
            length,
        } => {
            print!(rt; " F {timestamp} {channel} {speed} {region} {rssi}")?;
            say::hex(rt, &payload[..usize::from(length)])?;
        }
    }
    print!(rt; " {}", u.used)
}

// Whether a byte is taken after the first bytes of a frame or a command.
fn takes(start: &[u8], value: u8) -> bool {
    let mut bytes = [0u8; 8];
    let mut out = Out {
        bytes: &mut bytes,
        at: 0,
    };
    out.put_text(start);
    out.put_byte(value);
    let len = out.at;
    zniffer_numbers::goes_on(zniffer_core::run_fresh(made::part(&bytes, len)).result)
}

// How many bytes are.
pub fn taken(start: &[u8]) -> usize {
    (0..=u8::MAX).filter(|value| takes(start, *value)).count()
}
