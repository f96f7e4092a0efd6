// A whole header at once: a command's three bytes, or a frame's ten, whose length is not 0. What they leave of a fresh parser is what
// they leave one after the other, without a step for each (`heads` of zniffer_core/proofs/Whole.antt).
ghost use Rattle.std.specs.Prelude.{◌≡◌};
ghost use Rattle.zniffer_starts.specs.Header.{head_of};

use zniffer_numbers::Core;
use zniffer_tests::{command_ok, region_ok, type_ok};

// The numbers after a header, and how many bytes it has; a fresh parser's and 0 where there is none.
// Kept: no Option of it, since with an enum in its place pages of Zniffer records took 6% more instructions (docs/DECISIONS.md).
#[derive(Clone, Copy, Debug, Default, PartialEq, Eq)]
pub struct Head {
    pub core: Core,
    pub size: usize,
}

// The header that some bytes begin with.
#[tactic(auto, unfolding(crate::specs::Header::head_of))]
pub fn header_of(s: &[u8]) -> Head
    ensures { result ≡ head_of s.now }
{
    match s {
        &[0x23, id, length, ..] => {
            if !command_ok(id) || length == 0 {
                return Head::default();
            }
            Head {
                core: Core {
                    state: 3,
                    command_id: id,
                    length,
                    ..Core::default()
                },
                size: 3,
            }
        }
        &[0x21, kind, high, low, place, region, rssi, y, z, length, ..] => {
            if !type_ok(kind) || !region_ok(region) || y != 0x21 || z != 0x03 || length == 0 {
                return Head::default();
            }
            Head {
                core: Core {
                    state: 3,
                    length,
                    frame_type: kind,
                    timestamp: u16::from(high) * 256 + u16::from(low),
                    channel: place / 32,
                    speed: place % 32,
                    region,
                    rssi,
                    ..Core::default()
                },
                size: 10,
            }
        }
        _ => Head::default(),
    }
}
