// Which numbers the bytes may be, and the test on a parser's numbers: what they are in each state.
#![tactic(auto)]

ghost use Rattle.std.specs.Prelude.{◌≡◌};
ghost use Rattle.zniffer_tests.specs.Tests.{command_ok, type_ok, region_ok, unfilled, no_region, no_channel, no_frame, typed, timed, placed, framed, quiet, headed, reachable_of};

use zniffer_numbers::Core;

// The ids of commands, the types of frames, and the regions that are known.
pub fn command_ok(value: u8) -> bool
    ensures { result ≡ command_ok value }
{
    matches!(value, 1..=5 | 14 | 19)
}

pub fn type_ok(value: u8) -> bool
    ensures { result ≡ type_ok value }
{
    matches!(value, 1..=2 | 4..=5)
}

pub fn region_ok(value: u8) -> bool
    ensures { result ≡ region_ok value }
{
    matches!(value, 0..=3 | 5..=9 | 11 | 32 | 33)
}

// What a parser's numbers say, below: `&` and `|`, so that no test has a branch. The payload's are still zero; a frame's are from its
// region on, from its channel on, all.
fn unfilled(c: Core) -> bool
    ensures { result ≡ unfilled c }
{
    (c.length == 0) & (c.count == 0)
}

fn no_region(c: Core) -> bool
    ensures { result ≡ no_region c }
{
    (c.region == 0) & (c.rssi == 0)
}

fn no_channel(c: Core) -> bool
    ensures { result ≡ no_channel c }
{
    ((c.channel == 0) & (c.speed == 0)) & no_region(c)
}

fn no_frame(c: Core) -> bool
    ensures { result ≡ no_frame c }
{
    ((c.frame_type == 0) & ((c.timestamp == 0) & !c.timestamp_state)) & no_channel(c)
}

// A frame with its type and no more than the first byte of its timestamp; with both; with its channel and speed; with its region.
fn typed(c: Core) -> bool
    ensures { result ≡ typed c }
{
    type_ok(c.frame_type)
        & ((c.timestamp_state & (c.timestamp % 256 == 0))
            | (!c.timestamp_state & (c.timestamp == 0)))
}

fn timed(c: Core) -> bool
    ensures { result ≡ timed c }
{
    type_ok(c.frame_type) & !c.timestamp_state
}

fn placed(c: Core) -> bool
    ensures { result ≡ placed c }
{
    timed(c) & ((c.channel < 8) & (c.speed < 32))
}

fn framed(c: Core) -> bool
    ensures { result ≡ framed c }
{
    placed(c) & region_ok(c.region)
}

// No command's id, and all else zero; a command's id, or a whole frame's header.
fn quiet(c: Core) -> bool
    ensures { result ≡ quiet c }
{
    (c.command_id == 0) & no_frame(c)
}

fn headed(c: Core) -> bool
    ensures { result ≡ headed c }
{
    (command_ok(c.command_id) & no_frame(c)) | ((c.command_id == 0) & framed(c))
}

// Whether some bytes from a fresh parser leave these numbers: what they are in each state.
#[tactic(auto, using(crate::proofs::Laws::data_test))]
pub fn reachable(c: Core) -> bool
    ensures { result ≡ reachable_of c }
{
    match c.state {
        0 | 1 | 4 => quiet(c) & unfilled(c),
        2 => headed(c) & unfilled(c),
        3 => headed(c) & (c.count < c.length),
        5 => (c.command_id == 0) & ((typed(c) & no_channel(c)) & unfilled(c)),
        6 => (c.command_id == 0) & ((timed(c) & no_channel(c)) & unfilled(c)),
        7 => (c.command_id == 0) & ((placed(c) & no_region(c)) & unfilled(c)),
        8 => (c.command_id == 0) & ((framed(c) & (c.rssi == 0)) & unfilled(c)),
        9 | 10 => (c.command_id == 0) & (framed(c) & unfilled(c)),
        _ => false,
    }
}
