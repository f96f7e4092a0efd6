// Bracket records: splitting a payload into bodies, pti/mod.rs.
//
// A ZLF payload of kind PTI holds bracket records; the body of each may hold one Z-Wave frame. Nothing is copied: a body is a place and a
// length in the payload.
#![tactic(auto)]

ghost use Rattle.std.specs.Prelude.{◌≡◌, ◌+◌, ◌<◌, length, IfSome};
ghost use Rattle.bracket.specs.Bracket.{good_length, next_record};

// Bracket preamble introducing a PTI record.
const PREAMBLE: u8 = 0x5B; // '['
// Bracket postamble terminating a PTI record.
const POSTAMBLE: u8 = 0x5D; // ']'

// A body: its place and length in the payload, and the place after its bracket record.
// Kept: places and no slice, since a row gives its MPDU's place, and a caller goes on from `next`.
#[derive(Clone, Copy, Debug, PartialEq, Eq)]
pub struct Body {
    pub at: usize,
    pub len: usize,
    pub next: usize,
}

// The length of the good bracket record at a place, none where none stands there: a length of 0 is bad.
#[tactic(auto, using(crate::proofs::Steps::lengths))]
fn good_length(payload: &[u8], at: usize) -> Option<usize>
    ensures value { result ≡ good_length payload.now at }
    ensures inside { IfSome result (λ len. at + 1 + len < length payload.now) }
{
    if payload.len() <= 4 {
        return None;
    }
    let rest = payload.get(at..)?;
    let [opening, len, ..] = rest else {
        return None;
    };
    let len = usize::from(*len);
    // After a length of 0 that is the length itself, which is no postamble.
    let closing = rest.get(len + 1)?;
    if *opening == PREAMBLE && *closing == POSTAMBLE {
        Some(len)
    } else {
        None
    }
}

// The next body of a payload, from the place of a bracket record's first byte on: 0, and then each `next` until there is none, which is
// the payload's end, or a malformed record.
#[tactic(auto, using(crate::proofs::Steps::turns))]
pub fn next_record(payload: &[u8], at: usize) -> Option<Body>
    ensures { result ≡ next_record payload.now at }
{
    let mut from = at;
    while let Some(len) = good_length(payload, from) {
        // The record body starts two bytes past the length and excludes the length and postamble bytes. A length of 1 has no body: such a
        // record is three bytes.
        if len >= 2 {
            return Some(Body {
                at: from + 3,
                len: len - 2,
                next: from + len + 2,
            });
        }
        from += 3;
    }
    None
}
