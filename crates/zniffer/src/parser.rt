// The parser with its payload, by value: a step, and a run over several bytes.
ghost use Rattle.std.specs.Prelude.{◌≡◌};
ghost use Rattle.zniffer.specs.Parse.{zeros, core_of, parser_of, fresh_parser, with_byte, settle, step_of, run_from};
ghost use Rattle.zniffer.specs.Held.{held_by};

use zniffer_core::{core_step, run_core};
use zniffer_numbers::{Core, ParserResult, fresh_core};

// The numbers of `Core`, and the payload so far, of which `count` bytes are there and no others are looked at.
#[repr(C)]
#[derive(Clone, Copy)]
pub struct Parser {
    pub state: u8,
    pub command_id: u8,
    pub length: u8,
    pub count: u8,
    pub frame_type: u8,
    pub timestamp: u16,
    pub timestamp_state: bool,
    pub channel: u8,
    pub speed: u8,
    pub region: u8,
    pub rssi: u8,
    pub payload: [u8; 255],
}

// A result, and beside it the payload that it hands out: the first `length` bytes of the array.
#[derive(Clone, Copy)]
pub struct Answer {
    pub result: ParserResult,
    pub payload: [u8; 255],
}

#[derive(Clone, Copy)]
pub struct Parsed {
    pub parser: Parser,
    pub answer: Answer,
}

// What the last byte used gave, and how many were used.
#[derive(Clone, Copy)]
pub struct Used {
    pub answer: Answer,
    pub used: usize,
}

#[derive(Clone, Copy)]
pub struct Ran {
    pub parser: Parser,
    pub out: Used,
}

// A function of its own, so that no proof meets 255 zeros.
fn no_payload() -> [u8; 255]
    ensures { result ≡ zeros }
{
    [0u8; 255]
}

// A parser's numbers.
impl From<Parser> for Core {
    ghost from_gives = { λ p r. r ≡ core_of p };

    fn from(p: Parser) -> Core {
        Core {
            state: p.state,
            command_id: p.command_id,
            length: p.length,
            count: p.count,
            frame_type: p.frame_type,
            timestamp: p.timestamp,
            timestamp_state: p.timestamp_state,
            channel: p.channel,
            speed: p.speed,
            region: p.region,
            rssi: p.rssi,
        }
    }
}

fn parser_of(c: Core, payload: [u8; 255]) -> Parser
    ensures { result ≡ parser_of c payload }
{
    Parser {
        state: c.state,
        command_id: c.command_id,
        length: c.length,
        count: c.count,
        frame_type: c.frame_type,
        timestamp: c.timestamp,
        timestamp_state: c.timestamp_state,
        channel: c.channel,
        speed: c.speed,
        region: c.region,
        rssi: c.rssi,
        payload,
    }
}

pub fn fresh() -> Parser
    ensures { result ≡ fresh_parser }
{
    parser_of(fresh_core(), no_payload())
}

// The payload with one byte more, where a byte of it is awaited.
fn with_byte(c: Core, mut payload: [u8; 255], value: u8) -> [u8; 255]
    ensures { result ≡ with_byte c payload value }
{
    if c.state == 3 && c.count < c.length {
        payload[usize::from(c.count)] = value;
    }
    payload
}

// The payload stays in the parser while more bytes are wanted, and is handed out with a command or a frame.
fn settled(c: Core, payload: [u8; 255], r: ParserResult) -> Parsed
    ensures { result ≡ settle c payload r }
{
    let (kept, handed_out) = match r {
        ParserResult::IncompleteFrame => (payload, no_payload()),
        ParserResult::InvalidFrame => (no_payload(), no_payload()),
        ParserResult::ValidCommand { .. } | ParserResult::ValidFrame { .. } => (
            no_payload(),
            payload,
        ),
    };
    Parsed {
        parser: parser_of(c, kept),
        answer: Answer {
            result: r,
            payload: handed_out,
        },
    }
}

// One byte, at any parser.
#[tactic(auto, unfolding(crate::specs::Parse::step_of))]
pub fn step(p: Parser, value: u8) -> Parsed
    ensures { result ≡ step_of p value }
{
    let c = Core::from(p);
    let s = core_step(c, value);
    settled(s.core, with_byte(c, p.payload, value), s.result)
}

// How many bytes of a payload there are after a byte: those so far, or those that the result hands out.
fn held(c: Core, r: ParserResult) -> u8
    ensures { result ≡ held_by c r }
{
    match r {
        ParserResult::IncompleteFrame => c.count,
        ParserResult::InvalidFrame => 0,
        ParserResult::ValidCommand { length, .. } | ParserResult::ValidFrame { length, .. } =>
            length,
    }
}

// Several bytes, at any parser. The numbers go alone; the payload's bytes are the last of those used, and are copied at once.
pub fn run(p: Parser, s: &[u8]) -> Ran
    ensures { result ≡ run_from 0 s.now p }
{
    let ran = run_core(Core::from(p), s);
    let used = ran.used;
    let end = usize::from(held(ran.core, ran.result));
    let n = end.min(used);
    let last = &s[used - n..used];
    let mut payload = p.payload;
    payload[end - n..end].copy_from_slice(last);
    let Parsed { parser, answer } = settled(ran.core, payload, ran.result);
    Ran {
        parser,
        out: Used { answer, used },
    }
}
