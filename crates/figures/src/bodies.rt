// Bracket records, PTI frames and speeds.
use bracket::Body;
use pti::PtiFrame;
use std::io;

// A body's place and length, and the place after its bracket record.
pub fn split(rt: &impl Print, body: Option<Body>) -> io::Result<()> {
    match body {
        Some(Body { at, len, next }) => print!(rt; " {at} {len} {next}"),
        None => print!(rt; " none"),
    }
}

// A body's frame: direction (0 received, 1 sent), region, channel, speed, RSSI, beam count, MPDU place and length.
pub fn frame(rt: &impl Print, frame: Option<PtiFrame>) -> io::Result<()> {
    let Some(f) = frame else {
        return print!(rt; " none");
    };
    print!(rt;
        " {} {} {} {} {} {} {} {}",
        f.direction, f.region, f.channel, f.speed, f.rssi, f.beam_count, f.mpdu, f.mpdu_len
    )
}

// How many pairs of channel and region have a speed.
pub fn pairs(speed: u8) -> usize {
    (0..=u16::MAX)
        .filter(|pair| {
            let [channel, region] = pair.to_be_bytes();
            speed::speed_for(channel, region) == speed
        })
        .count()
}
