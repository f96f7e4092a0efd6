// Cases K, m, c and C: the kind table and the version, a stored time, one speed, all speeds.
use crate::out;
use std::fmt;
use std::fmt::Write;

// The version, and a digit for each entry of the table.
pub fn kinds(out: &mut impl Write, version: u32, kinds: &[u8; 256]) -> fmt::Result {
    write!(out, " {version}")?;
    out::digits(out, |end| kinds[usize::from(end)])
}

// The ticks without the two bits of the kind, and the milliseconds.
pub fn time(out: &mut impl Write, raw: u64) -> fmt::Result {
    write!(out, " {} {}", ticks::ticks(raw), ticks::unix_millis(raw))
}

// The speed of a channel and a region.
pub fn speed(out: &mut impl Write, channel: u8, region: u8) -> fmt::Result {
    write!(out, " {}", speed::speed_for(channel, region))
}

// A line for each channel, with a digit for each region.
pub fn speeds(out: &mut impl Write) -> fmt::Result {
    for channel in 0..=u8::MAX {
        write!(out, "\n  {channel}")?;
        out::digits(out, |region| speed::speed_for(channel, region))?;
    }
    Ok(())
}
