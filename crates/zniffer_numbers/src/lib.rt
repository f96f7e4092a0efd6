// The numbers of the Zniffer's parser, without the payload's bytes, and what a byte gives. Carried over from `zniffer_parser.rs`.
#![tactic(auto)]

ghost use Rattle.std.specs.Prelude.{◌≡◌};
ghost use Rattle.zniffer_numbers.specs.Numbers.{fresh_core, goes_on};

// What a byte gives: a command or a frame, whose payload is `length` bytes long; that more bytes are wanted; or that the
// byte is bad.
#[derive(Clone, Copy, Debug, PartialEq, Eq)]
pub enum ParserResult {
    ValidCommand {
        id: u8,
        length: u8,
    },
    ValidFrame {
        timestamp: u16,
        channel: u8,
        speed: u8,
        region: u8,
        rssi: u8,
        length: u8,
    },
    IncompleteFrame,
    InvalidFrame,
}

// The states, in the Rust's order: 0 AwaitStartOfFrame, 1 AwaitCommandID, 2 AwaitLength, 3 AwaitPayload, 4 AwaitType,
// 5 AwaitTimestamp, 6 AwaitChannelAndSpeed, 7 AwaitRegion, 8 AwaitRssi, 9 AwaitStartofDataOne, 10 AwaitStartofDataTwo.
// `count` is how many bytes of the payload there are so far, and `timestamp_state` that the timestamp lacks its low byte.
#[derive(Clone, Copy, Debug, Default, PartialEq, Eq)]
pub struct Core {
    pub state: u8,
    pub command_id: u8,
    pub length: u8,
    pub count: u8,
    pub frame_type: u8,
    pub timestamp: u16,
    pub timestamp_state: bool,
    pub channel: u8,
    pub speed: u8,
    pub region: u8,
    pub rssi: u8,
}

#[derive(Clone, Copy, Debug, PartialEq, Eq)]
pub struct CoreStep {
    pub core: Core,
    pub result: ParserResult,
}

pub fn fresh_core() -> Core
    ensures { result ≡ fresh_core }
{
    Core::default()
}

// Whether a result wants more bytes.
pub fn goes_on(r: ParserResult) -> bool
    ensures { result ≡ goes_on r }
{
    matches!(r, ParserResult::IncompleteFrame)
}
