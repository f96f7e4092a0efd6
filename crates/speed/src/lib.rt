// Channel and region to bit rate: pti/speed.rs.
//
// PTI records do not carry the bit rate; it is implied by the channel and the region, by ITU-T G.9959 (tables A.1, A.2). The Rust
// searches four lists; here is one grid, as it is drawn on the wall chart, proved to answer as they do (specs/Speed.antt).
#![tactic(auto)]

ghost use Rattle.std.specs.Prelude.{◌≡◌};
ghost use Rattle.speed.specs.Chart.{row_for};
ghost use Rattle.speed.specs.Speed.{speed_for};

// The grid: region down, channels 0 to 3 across. 0 is 9.6k, 1 is 40k, 2 is 100k, 3 is Long Range; 0 is also where nothing is drawn, which
// is the Rust's default.
// Kept: a match and no array, which the compiler lays on the stack at each call, and so misses the Rust's 2,111,548 instructions for the
// grid's pairs: 2,900,539, and the match 1,890,875 (docs/SPEED.md).
#[tactic(auto, using(crate::proofs::Chart::blank_first, crate::proofs::Chart::blank))]
fn row(region: u8) -> [u8; 4]
    ensures { result ≡ row_for region }
{
    match region {
        00 => [0, 0, 0, 0],
        01 => [2, 1, 0, 0], // European Union
        02 => [2, 1, 0, 0], // United States
        03 => [2, 1, 0, 0], // Australia/New Zealand
        04 => [2, 1, 0, 0], // Hong Kong
        05 => [2, 1, 0, 0], // Malaysia
        06 => [2, 1, 0, 0], // India
        07 => [2, 2, 2, 0], // Japan
        08 => [2, 1, 0, 0], // Russian Federation
        09 => [2, 1, 0, 0], // Israel
        10 => [2, 2, 2, 0], // Korea
        11 => [2, 1, 0, 0], // China
        12 => [2, 1, 0, 3], // United States, Long Range 1
        13 => [2, 1, 0, 3], // United States, Long Range 2
        14 => [3, 3, 0, 0], // United States, Long Range 3
        15 => [2, 1, 0, 3], // European Union, Long Range 1
        16 => [2, 1, 0, 3], // European Union, Long Range 2
        17 => [3, 3, 0, 0], // European Union, Long Range 3
        18 => [0, 0, 0, 0],
        19 => [0, 0, 0, 0],
        20 => [0, 0, 0, 0],
        21 => [0, 0, 0, 0],
        22 => [0, 0, 0, 0],
        23 => [0, 0, 0, 0],
        24 => [0, 0, 0, 0],
        25 => [0, 0, 0, 0],
        26 => [0, 0, 0, 0],
        27 => [0, 0, 0, 0],
        28 => [0, 0, 0, 0],
        29 => [0, 0, 0, 0],
        30 => [0, 0, 0, 0],
        31 => [0, 0, 0, 0],
        _ => [0, 0, 0, 0],
    }
}

// Bit rate implied by a channel and a region: a cell of the grid, and 0 off it.
// Kept: a number and no enum of the four rates, since the promise is 01's number.
#[tactic(auto, using(crate::proofs::Chart::cell, crate::proofs::Chart::beside))]
pub fn speed_for(channel: u8, region: u8) -> u8
    ensures { result ≡ speed_for channel region }
{
    if channel < 4 {
        row(region)[usize::from(channel)]
    } else {
        0
    }
}
