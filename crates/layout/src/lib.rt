// A trace and its kind table, numbers at a place of a trace, the kind of an end byte, and the layout's fixed numbers.
#![tactic(auto)]

ghost use Rattle.std.specs.Prelude.{ℕ, ◌≡◌, ◌+◌, ◌*◌, ◌≤◌, ◌↔◌, length, get_or, IsOk, IfOk};
ghost use Rattle.layout.specs.Layout.{le_at, kind_of, trace_limit};

// Bytes of the header; the first record follows it.
pub const ZLF_HEADER_SIZE: usize = 2048;

// The longest trace that is read.
pub const TRACE_LIMIT: usize = 1_073_741_824;

// Bytes of a record that precede its payload: ticks (8), properties (1), length (4).
pub const RECORD_HEADER: usize = 13;

// Where the properties and the length stand in a record.
pub const PROPERTIES: usize = 8;

pub const LENGTH: usize = 9;

// The kinds of an end byte.
// Kept: numbers, and no enum. `rows::next_frame` and the functions that name a kind promise an answer for each of 256, and C's structs hold them.
pub const UNKNOWN: u8 = 0;

pub const PTI: u8 = 1;

pub const PTI_DIAGNOSTIC: u8 = 2;

pub const ZNIFFER: u8 = 3;

pub const OTHER: u8 = 4;

// An answer that is none: its number in the list of refusals, 1 to 10 (include/zlf.h has them).
pub trait Refusal {
    ghost number: { Self → ℕ };

    fn number(self) -> u32
        ensures { result ≡ number self };
}

// The trace is over the limit.
#[derive(Clone, Copy, Debug, PartialEq, Eq)]
pub struct TraceTooLong;

impl Refusal for TraceTooLong {
    ghost number = { λ _. 1 };

    fn number(self) -> u32 {
        1
    }
}

// A trace, and its kind table, which has an entry for each end byte.
#[derive(Clone, Copy)]
pub struct Trace<'a> {
    pub kinds: &'a [u8; 256],
    pub bytes: &'a [u8],
}

// A trace that is not over the limit.
#[derive(Clone, Copy)]
pub struct Readable<'a> {
    pub kinds: &'a [u8; 256],
    pub bytes: &'a [u8],
    ghost fits: { length bytes.now ≤ trace_limit },
}

impl<'a> Trace<'a> {
    // The same trace, if it is not over the limit.
    pub fn readable(self) -> Result<Readable<'a>, TraceTooLong>
        ensures same { IfOk result (λ t. (t.kinds ≡ self.entry.kinds) × (t.bytes ≡ self.entry.bytes)) }
        ensures fits { IsOk result ↔ (length self.entry.bytes.now ≤ trace_limit) }
    {
        if TRACE_LIMIT < self.bytes.len() {
            return Err(TraceTooLong);
        }
        Ok(Readable {
            kinds: self.kinds,
            bytes: self.bytes,
        })
    }
}

// The byte at a place; past the end it reads as 0.
pub fn u8_at(s: &[u8], at: usize) -> u8
    ensures { result ≡ get_or s.now at 0 }
{
    if at < s.len() { s[at] } else { 0 }
}

pub fn u16_at(s: &[u8], at: usize) -> u16
    ensures { result ≡ le_at 2 s.now at }
{
    if s.len() <= at {
        return 0;
    }
    u16::from_le_bytes([s[at], u8_at(s, at + 1)])
}

pub fn u32_at(s: &[u8], at: usize) -> u32
    ensures { result ≡ le_at 4 s.now at }
{
    if s.len() <= at {
        return 0;
    }
    if 4 <= s.len() - at {
        return u32::from_le_bytes([s[at], s[at + 1], s[at + 2], s[at + 3]]);
    }
    u32::from_le_bytes([s[at], u8_at(s, at + 1), u8_at(s, at + 2), u8_at(s, at + 3)])
}

// Where eight bytes are there, the compiler reads them at once.
pub fn u64_at(s: &[u8], at: usize) -> u64
    ensures { result ≡ le_at 8 s.now at }
{
    if s.len() <= at {
        return 0;
    }
    if 8 <= s.len() - at {
        return u64::from_le_bytes([
            s[at],
            s[at + 1],
            s[at + 2],
            s[at + 3],
            s[at + 4],
            s[at + 5],
            s[at + 6],
            s[at + 7],
        ]);
    }
    let low = u64::from(u32_at(s, at));
    let high = u64::from(u32_at(s, at + 4));
    low + 4294967296 * high
}

// The kind of an end byte, by a table of 256 entries; an entry above 4 reads as 0.
pub fn kind_of(kinds: &[u8; 256], end: u8) -> u8
    ensures { result ≡ kind_of kinds.now end }
{
    let kind = kinds[usize::from(end)];
    if kind <= OTHER { kind } else { UNKNOWN }
}
