// The frames of one record, as numbers, by value: the decoding part of cursor.rs.
//
// A walk over the frames of a payload goes by one index: after each frame the Zniffer parser is fresh, and a bracket record
// is passed whole, so what comes next depends on the place alone.
#![tactic(auto)]

ghost use Rattle.std.specs.Prelude.{◌≡◌, ◌+◌, ◌^◌, ◌<◌, length};
ghost use Rattle.rows.specs.Frames.{shifted, completed, first_of, pti_from, zniffer_from, frames_from};

use layout::{PTI, PTI_DIAGNOSTIC, ZNIFFER};
use pti::PtiFrame;
use zniffer_numbers::ParserResult;

// A row of the lent table: one to a frame, numbers only. C reads it too.
// Kept: numbers in place of a frame or an enum of directions, since C reads these fields in this order.
#[repr(C)]
#[derive(Clone, Copy, Debug, PartialEq, Eq, Default)]
pub struct Row {
    // The record's offset, and the frame's position among those of the record.
    pub record: usize,
    pub position: usize,
    // Milliseconds since the Unix epoch, and those since the row before.
    pub millis: i64,
    pub gap: i64,
    // 0 received, 1 sent.
    pub direction: u8,
    pub region: u8,
    pub channel: u8,
    pub speed: u8,
    pub rssi: i8,
    // 0 where this is no beam.
    pub beam_count: u16,
    // Where the MPDU starts in the trace, and how many bytes it has.
    pub mpdu: usize,
    pub mpdu_len: usize,
}

// A frame of a payload, its MPDU's place counted in the payload, and the place after the bytes that hold it.
#[derive(Clone, Copy, Debug, PartialEq, Eq)]
pub struct NextFrame {
    pub frame: PtiFrame,
    pub next: usize,
}

// A body's frame, its MPDU's place counted from where the body stands.
fn moved(at: usize, f: PtiFrame) -> PtiFrame
    requires { at + f.mpdu < 2 ^ 64 }
    ensures { result ≡ shifted at f }
{
    PtiFrame {
        mpdu: at + f.mpdu,
        ..f
    }
}

// The first frame of the bodies from a place on.
#[tactic(auto, using(crate::proofs::Pti::turns))]
fn next_pti(payload: &[u8], at: usize) -> Option<NextFrame>
    ensures { result ≡ first_of (pti_from payload.now at) }
{
    let mut from = at;
    while let Some(body) = bracket::next_record(payload, from) {
        let bytes = &payload[body.at..body.at + body.len];
        if let Some(f) = pti::parse_record(bytes) {
            return Some(NextFrame {
                frame: moved(body.at, f),
                next: body.next,
            });
        }
        from = body.next;
    }
    None
}

// The frame that the parser gave, if it gave one, whose payload's bytes end at a place.
fn completed(outgoing: bool, end: usize, gave: ParserResult) -> Option<NextFrame>
    ensures { result ≡ first_of (completed outgoing end gave) }
{
    let ParserResult::ValidFrame {
        channel,
        speed,
        region,
        rssi,
        length,
        ..
    } = gave
    else {
        return None;
    };
    let n = usize::from(length);
    Some(NextFrame {
        frame: PtiFrame {
            direction: u8::from(outgoing),
            region,
            channel,
            speed,
            rssi: rssi.cast_signed(),
            beam_count: 0,
            mpdu: end.saturating_sub(n),
            mpdu_len: n,
        },
        next: end,
    })
}

// The first frame that the bytes from a place on complete, in a fresh parser.
#[tactic(auto, using(crate::proofs::Zniffer::turns))]
fn next_zniffer(payload: &[u8], outgoing: bool, at: usize) -> Option<NextFrame>
    ensures { result ≡ first_of (zniffer_from outgoing payload.now at) }
{
    let mut from = at;
    while from < payload.len() {
        let ran = zniffer_core::run_fresh(&payload[from..]);
        if let ParserResult::IncompleteFrame = ran.result {
            return None;
        }
        let end = from + ran.used;
        if let Some(frame) = completed(outgoing, end, ran.result) {
            return Some(frame);
        }
        from = end;
    }
    None
}

// The first frame of a record's payload from a place on: 0, and then each `next` until there is none.
// Kept: the kind is a number and no enum, since every number has an answer.
#[tactic(auto, unfolding(crate::specs::Frames::frames_from))]
pub fn next_frame(payload: &[u8], kind: u8, outgoing: bool, at: usize) -> Option<NextFrame>
    ensures { result ≡ first_of (frames_from kind outgoing payload.now at) }
{
    match kind {
        PTI | PTI_DIAGNOSTIC => next_pti(payload, at),
        ZNIFFER => next_zniffer(payload, outgoing, at),
        _ => None,
    }
}

// How many frames a record's payload has.
#[tactic(auto, using(crate::proofs::Walk::none_counted))]
pub fn frame_count(payload: &[u8], kind: u8, outgoing: bool) -> usize
    ensures { result ≡ length (frames_from kind outgoing payload.now 0) }
{
    let mut count = 0;
    let mut at = 0;
    while let Some(found) = next_frame(payload, kind, outgoing, at) {
        count += 1;
        at = found.next;
    }
    count
}
