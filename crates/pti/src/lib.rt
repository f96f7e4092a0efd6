// PTI frames: pti/mod.rs.
//
// The body of a bracket record may hold one Z-Wave frame. Nothing is copied: a frame's MPDU is a place and a length in the body.
#![tactic(auto)]

ghost use Rattle.std.specs.Prelude.{◌≡◌, ◌%◌, ◌≤◌, length};
ghost use Rattle.pti.specs.Frame.{frame_of, tagged_of, sided_of, parts_of, tail_size, end_tag, rssi_of, is_beam, beams_of, mpdu_length};

use beam::BEAM_MARKER;

// Length of the DCH header for each supported version.
const DCH_LENGTH_VER2: usize = 11;

const DCH_LENGTH_VER3: usize = 18;

// Hardware start/stop tags surrounding the radio payload.
const HW_RX_START: u8 = 0xF8;

const HW_TX_START: u8 = 0xFC;

const HW_RX_SUCCESS: u8 = 0xF9;

const HW_TX_SUCCESS: u8 = 0xFD;

// Z-Wave protocol id in the PTI appendix.
const ZWAVE_PROTOCOL: u8 = 0x06;

// Offset of the MPDU length field within a Z-Wave header.
const LENGTH_INDEX_IN_HEADER: usize = 7;

// A Z-Wave frame recovered from a PTI record.
#[derive(Clone, Copy, Debug, PartialEq, Eq)]
pub struct PtiFrame {
    // 0 received, 1 sent.
    // Kept: a number and no enum, as `speed` is, since a row and the C interface's answer carry it as it is, and are `repr(C)`.
    pub direction: u8,
    // Region id, as encoded by PTI.
    pub region: u8,
    pub channel: u8,
    // 0 is 9.6k, 1 is 40k, 2 is 100k, 3 is Long Range, as `speed::speed_for` promises.
    pub speed: u8,
    // Zero for transmitted frames, which carry no RSSI.
    pub rssi: i8,
    // Number of beam repetitions; 0 where this is no wake-up beam.
    pub beam_count: u16,
    // Where the Z-Wave MPDU starts in the body, and how many bytes it has.
    // Kept: a place and no slice, since a row and the C interface's answer carry it as it is.
    pub mpdu: usize,
    pub mpdu_len: usize,
}

// The low four bits: the Rust's REGION_MASK, CHANNEL_MASK and PROTOCOL_MASK are all 0x0F.
fn low4(x: u8) -> u8
    ensures { result ≡ x % 16 }
{
    x & 0x0F
}

// Decode one PTI record body into a Z-Wave frame: none where it is a diagnostic record, an aborted transmission or another protocol's.
#[tactic(auto, unfolding(crate::specs::Frame::frame_of))]
pub fn parse_record(data: &[u8]) -> Option<PtiFrame>
    ensures { result ≡ frame_of «data».now }
{
    match *data.first()? {
        2 => parse_tagged(data, DCH_LENGTH_VER2 + 1),
        3 => parse_tagged(data, DCH_LENGTH_VER3 + 1),
        _ => None,
    }
}

// The byte before the radio part says whether this is a receive or transmit.
#[tactic(auto, unfolding(crate::specs::Frame::tagged_of))]
fn parse_tagged(data: &[u8], before: usize) -> Option<PtiFrame>
    requires { (1 ≤ before) × (before ≤ 19) }
    ensures { result ≡ tagged_of before «data».now }
{
    match *data.get(before - 1)? {
        HW_RX_START => parse_sided(data, before, false),
        HW_TX_START => parse_sided(data, before, true),
        _ => None,
    }
}

// How many bytes the appendix has.
fn tail_size(sent: bool) -> usize
    ensures { (result ≡ tail_size sent) × (result ≤ 6) }
{
    if sent { 5 } else { 6 }
}

// The end tag of a successful transfer.
fn success(sent: bool) -> u8
    ensures { result ≡ end_tag sent }
{
    if sent { HW_TX_SUCCESS } else { HW_RX_SUCCESS }
}

// Direction fixes the size and layout of the trailing appendix.
#[tactic(auto, unfolding(crate::specs::Frame::sided_of))]
fn parse_sided(data: &[u8], before: usize, sent: bool) -> Option<PtiFrame>
    requires { before ≤ 19 }
    ensures { result ≡ sided_of before sent «data».now }
{
    let after = tail_size(sent);
    if data.len() <= before + after {
        return None;
    }
    let appendix = data.len() - after;
    let parts = Parts {
        before,
        sent,
        radio: &data[before..appendix],
        tail: &data[appendix..],
    };
    parts.frame()
}

// The parts of a body: its header part's length, where the radio part starts, whether it was sent, its radio part and its appendix.
#[derive(Clone, Copy)]
struct Parts<'a> {
    before: usize,
    // Kept: a bool and no enum of directions, since the definitions are over one.
    sent: bool,
    radio: &'a [u8],
    tail: &'a [u8],
    ghost some_radio: { 1 ≤ length radio.now },
    ghost whole_tail: { length tail.now ≡ tail_size sent },
}

impl Parts<'_> {
    // The frame of the parts. Only a successful transfer carries a valid frame, or a beam.
    #[tactic(auto, using(crate::proofs::Framing::frames))]
    fn frame(self) -> Option<PtiFrame>
        ensures { result ≡ parts_of self.entry.before self.entry.sent self.entry.radio.now self.entry.tail.now }
    {
        let [end, .., region, channel, protocol, _] = self.tail else {
            unreachable!()
        };
        if *end != success(self.sent) && !self.is_beam() {
            return None;
        }
        if low4(*protocol) != ZWAVE_PROTOCOL {
            return None;
        }
        let region = low4(*region);
        let channel = low4(*channel);
        let speed = speed::speed_for(channel, region);
        Some(PtiFrame {
            direction: u8::from(self.sent),
            region,
            channel,
            speed,
            rssi: self.rssi(),
            beam_count: self.beams(speed),
            mpdu: self.before,
            mpdu_len: self.mpdu_length(),
        })
    }

    fn is_beam(self) -> bool
        ensures { result ≡ is_beam self.entry.radio.now }
    {
        self.radio[0] == BEAM_MARKER
    }

    // The RSSI of a receive's appendix.
    fn rssi(self) -> i8
        ensures { result ≡ rssi_of self.entry.sent self.entry.tail.now }
    {
        if self.sent {
            0
        } else {
            self.tail[1].cast_signed()
        }
    }

    // The repeats of a beam, 0 where the radio part is none.
    fn beams(self, speed: u8) -> u16
        ensures { result ≡ beams_of speed self.entry.radio.now }
    {
        if !self.is_beam() {
            return 0;
        }
        let frame_length = if speed == 3 { 4 } else { 3 };
        beam::beam_count(frame_length, self.radio)
    }

    // Prefer the length declared in the Z-Wave header; fall back to the whole payload when it is absent or implausible. A beam has no
    // header.
    fn mpdu_length(self) -> usize
        ensures { result ≡ mpdu_length self.entry.radio.now }
    {
        let whole = self.radio.len();
        if self.is_beam() {
            return whole;
        }
        match self.radio.get(LENGTH_INDEX_IN_HEADER) {
            Some(len) if usize::from(*len) <= whole => usize::from(*len),
            _ => whole,
        }
    }
}
