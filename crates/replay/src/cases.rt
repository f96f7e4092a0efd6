// The cases that are read: a letter, and fields, whose numbers are little-endian (compare/FORMAT.md).
ghost use Rattle.std.specs.Prelude.{◌+◌, ◌<◌, ◌≤◌, length, IfSome, OnSome};

use seek::SeekState;

#[derive(Clone, Copy)]
pub enum Case<'a> {
    // K: the version that an opening expects, and the kind table, for the cases after it
    Kinds { version: u32, kinds: &'a [u8; 256] },
    // G
    Regions,
    // m
    Time { raw: u64 },
    // c
    Speed { channel: u8, region: u8 },
    // C
    Speeds,
    // b
    Body { bytes: &'a [u8] },
    // p
    Payload { bytes: &'a [u8] },
    // z
    OneByOne { bytes: &'a [u8] },
    // y
    AtOnce { bytes: &'a [u8] },
    // w
    InPieces { bytes: &'a [u8] },
    // T: the trace for the cases after it
    Trace { bytes: &'a [u8] },
    // P: a byte of the trace for the cases after it
    Byte { place: usize, value: u8 },
    // r
    Record { offset: usize },
    // n
    Search { from: usize, window: usize },
    // t
    RecordTime { from: usize },
    // g
    Sum { bytes: &'a [u8] },
    // S
    PartSum { from: usize, to: usize },
    // o
    Open,
    // q
    OpenReader,
    // Q
    ReadFrom { place: usize },
    // s
    Span,
    // k
    Seek { target: i64 },
    // h
    SteppedSeek { target: i64 },
    // l
    PlainSeek { target: i64 },
    // j
    SeekStep { target: i64, state: SeekState },
    // f
    Page { offset: usize, count: usize },
    // F
    Pages { offset: usize, count: usize },
    // u
    Seam { place: usize },
}

impl<'a> Case<'a> {
    // The case that these bytes begin with, and how long it is; none where its letter is unknown or it is cut off.
    pub fn read(bytes: &'a [u8]) -> Option<(Case<'a>, usize)>
        ensures { IfSome result (λ c. (0 < c.1) × (c.1 ≤ length bytes.now)) }
    {
        let mut fields = Fields { rest: bytes };
        let case = fields.case()?;
        Some((case, bytes.len() - fields.rest.len()))
    }
}

// What is still to be read of some bytes. Each method reads a field, unless it is cut off.
#[derive(Drop)]
struct Fields<'a> {
    rest: &'a [u8],
}

impl<'a> Fields<'a> {
    fn array<const N: usize>(&mut self) -> Option<&'a [u8; N]>
        ensures { OnSome result (length self.new.rest.now + N ≤ length self.old.rest.now) }
    {
        let (array, rest) = self.rest.split_first_chunk::<N>()?;
        self.rest = rest;
        Some(array)
    }

    fn byte(&mut self) -> Option<u8>
        ensures { OnSome result (length self.new.rest.now < length self.old.rest.now) }
    {
        Some(u8::from_le_bytes(*self.array()?))
    }

    fn number32(&mut self) -> Option<u32>
        ensures { OnSome result (length self.new.rest.now < length self.old.rest.now) }
    {
        Some(u32::from_le_bytes(*self.array()?))
    }

    fn number64(&mut self) -> Option<u64>
        ensures { OnSome result (length self.new.rest.now < length self.old.rest.now) }
    {
        Some(u64::from_le_bytes(*self.array()?))
    }

    fn place(&mut self) -> Option<usize>
        ensures { OnSome result (length self.new.rest.now < length self.old.rest.now) }
    {
        Some(usize::from_le_bytes(*self.array()?))
    }

    fn signed64(&mut self) -> Option<i64>
        ensures { OnSome result (length self.new.rest.now < length self.old.rest.now) }
    {
        Some(i64::from_le_bytes(*self.array()?))
    }

    // A length of four bytes, and so many bytes.
    fn bytes(&mut self) -> Option<&'a [u8]>
        ensures { OnSome result (length self.new.rest.now < length self.old.rest.now) }
    {
        let len = self.number32()? as usize;
        let (bytes, rest) = self.rest.split_at_checked(len)?;
        self.rest = rest;
        Some(bytes)
    }

    // A tag, and the two numbers that it says the meaning of.
    fn state(&mut self) -> Option<SeekState>
        ensures { OnSome result (length self.new.rest.now < length self.old.rest.now) }
    {
        let tag = self.byte()?;
        let lo = self.place()?;
        let hi = self.place()?;
        if tag == 0 {
            return Some(SeekState::Searching { lo, hi });
        }
        Some(SeekState::Scanning { at: lo })
    }

    fn case(&mut self) -> Option<Case<'a>>
        ensures { OnSome result (length self.new.rest.now < length self.old.rest.now) }
    {
        match self.byte()? {
            b'K' => Some(Case::Kinds {
                version: self.number32()?,
                kinds: self.array()?,
            }),
            b'G' => Some(Case::Regions),
            b'm' => Some(Case::Time {
                raw: self.number64()?,
            }),
            b'c' => Some(Case::Speed {
                channel: self.byte()?,
                region: self.byte()?,
            }),
            b'C' => Some(Case::Speeds),
            b'b' => Some(Case::Body {
                bytes: self.bytes()?,
            }),
            b'p' => Some(Case::Payload {
                bytes: self.bytes()?,
            }),
            b'z' => Some(Case::OneByOne {
                bytes: self.bytes()?,
            }),
            b'y' => Some(Case::AtOnce {
                bytes: self.bytes()?,
            }),
            b'w' => Some(Case::InPieces {
                bytes: self.bytes()?,
            }),
            b'T' => Some(Case::Trace {
                bytes: self.bytes()?,
            }),
            b'P' => Some(Case::Byte {
                place: self.number32()? as usize,
                value: self.byte()?,
            }),
            b'r' => Some(Case::Record {
                offset: self.place()?,
            }),
            b'n' => Some(Case::Search {
                from: self.place()?,
                window: self.place()?,
            }),
            b't' => Some(Case::RecordTime {
                from: self.place()?,
            }),
            b'g' => Some(Case::Sum {
                bytes: self.bytes()?,
            }),
            b'S' => Some(Case::PartSum {
                from: self.place()?,
                to: self.place()?,
            }),
            b'o' => Some(Case::Open),
            b'q' => Some(Case::OpenReader),
            b'Q' => Some(Case::ReadFrom {
                place: self.place()?,
            }),
            b's' => Some(Case::Span),
            b'k' => Some(Case::Seek {
                target: self.signed64()?,
            }),
            b'h' => Some(Case::SteppedSeek {
                target: self.signed64()?,
            }),
            b'l' => Some(Case::PlainSeek {
                target: self.signed64()?,
            }),
            b'j' => Some(Case::SeekStep {
                target: self.signed64()?,
                state: self.state()?,
            }),
            b'f' => Some(Case::Page {
                offset: self.place()?,
                count: self.place()?,
            }),
            b'F' => Some(Case::Pages {
                offset: self.place()?,
                count: self.place()?,
            }),
            b'u' => Some(Case::Seam {
                place: self.place()?,
            }),
            _ => None,
        }
    }
}
