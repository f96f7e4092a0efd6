// One body's frame, the parser by bytes, milliseconds, speed.
ghost use Rattle.std.specs.Prelude.{◌≡◌};
ghost use Rattle.ticks.specs.Ticks.{unix_millis};
ghost use Rattle.speed.specs.Speed.{speed_for};
ghost use Rattle.pti.specs.Frame.{frame_of};
ghost use Rattle.zniffer_numbers.specs.Told.{told};
ghost use Rattle.zniffer.specs.Parse.{fresh_parser, run_from};
ghost use Rattle.capi_frames.specs.Frames.{frame_answer, framed, numbers_of, parsed_of};

use pti::PtiFrame;
use zniffer::{Answer, Parser, Ran, Used};
use zniffer_numbers::ParserResult;

// Whether the body holds a frame, and the frame: direction 0 received or 1 sent, region, channel, speed, RSSI, beam count, and
// where its MPDU starts in the body and how many bytes it has.
#[repr(C)]
#[derive(Clone, Copy, Debug, Default, PartialEq, Eq)]
pub struct FrameAnswer {
    pub is_frame: bool,
    pub direction: u8,
    pub region: u8,
    pub channel: u8,
    pub speed: u8,
    pub rssi: i8,
    pub beam_count: u16,
    pub mpdu: usize,
    pub mpdu_len: usize,
}

// A result of the parser: which (0 more bytes are wanted, 1 a command, 2 a frame, 3 the byte is bad), and its numbers.
#[repr(C)]
#[derive(Clone, Copy, Debug, Default, PartialEq, Eq)]
pub struct ResultNumbers {
    pub which: u8,
    pub id: u8,
    pub timestamp: u16,
    pub channel: u8,
    pub speed: u8,
    pub region: u8,
    pub rssi: u8,
    pub length: u8,
}

// A result, how many bytes were used, and the payload, of which the result's first `length` bytes are told.
#[repr(C)]
#[derive(Clone, Copy)]
pub struct ParsedBytes {
    pub result: ResultNumbers,
    pub used: usize,
    pub payload: [u8; 255],
}

impl From<PtiFrame> for FrameAnswer {
    ghost from_gives = { λ f r. r ≡ framed f };

    fn from(f: PtiFrame) -> FrameAnswer {
        FrameAnswer {
            is_frame: true,
            direction: f.direction,
            region: f.region,
            channel: f.channel,
            speed: f.speed,
            rssi: f.rssi,
            beam_count: f.beam_count,
            mpdu: f.mpdu,
            mpdu_len: f.mpdu_len,
        }
    }
}

// The frame in the body of a bracket record.
#[unsafe(no_mangle)]
pub extern "C" fn zlf_frame(body: &[u8]) -> FrameAnswer
    ensures { result ≡ frame_answer (frame_of body.now) }
{
    match pti::parse_record(body) {
        Some(f) => FrameAnswer::from(f),
        None => FrameAnswer::default(),
    }
}

// What a case of a result has no number for is 0.
impl From<ParserResult> for ResultNumbers {
    ghost from_gives = { λ p r. r ≡ numbers_of (told p) };

    fn from(p: ParserResult) -> ResultNumbers {
        let bare = ResultNumbers::default();
        match p {
            ParserResult::IncompleteFrame => bare,
            ParserResult::ValidCommand { id, length } => ResultNumbers {
                which: 1,
                id,
                length,
                ..bare
            },
            ParserResult::ValidFrame {
                timestamp,
                channel,
                speed,
                region,
                rssi,
                length,
            } => ResultNumbers {
                which: 2,
                timestamp,
                channel,
                speed,
                region,
                rssi,
                length,
                ..bare
            },
            ParserResult::InvalidFrame => ResultNumbers { which: 3, ..bare },
        }
    }
}

impl From<Used> for ParsedBytes {
    ghost from_gives = { λ u r. r ≡ parsed_of u };

    fn from(u: Used) -> ParsedBytes {
        let Answer { result, payload } = u.answer;
        ParsedBytes {
            result: ResultNumbers::from(result),
            used: u.used,
            payload,
        }
    }
}

// A fresh parser.
#[unsafe(no_mangle)]
pub extern "C" fn zlf_fresh() -> Parser
    ensures { result ≡ fresh_parser }
{
    zniffer::fresh()
}

// Several bytes into a lent parser, up to the first result that wants no more.
#[unsafe(no_mangle)]
pub extern "C" fn zlf_parse(p: &mut Parser, input: &[u8]) -> ParsedBytes
    ensures { (p.new ≡ (run_from 0 input.now p.old).parser) × (result ≡ parsed_of (run_from 0 input.now p.old).out) }
{
    let Ran { parser, out } = zniffer::run(*p, input);
    *p = parser;
    ParsedBytes::from(out)
}

// The milliseconds since the Unix epoch that a stored time stands for.
#[unsafe(no_mangle)]
pub extern "C" fn zlf_millis(raw: u64) -> i64
    ensures { result ≡ unix_millis raw }
{
    ticks::unix_millis(raw)
}

// The bit rate of a channel in a region.
#[unsafe(no_mangle)]
pub extern "C" fn zlf_speed(channel: u8, region: u8) -> u8
    ensures { result ≡ speed_for channel region }
{
    speed::speed_for(channel, region)
}
