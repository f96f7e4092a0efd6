// Times, regions, speeds and kinds by name, and the bytes of an MPDU, put into a lent buffer.
#![tactic(auto)]

ghost use Rattle.std.specs.Prelude.{◌≡◌, ◌<◌};
ghost use Rattle.text.specs.Put.{Puts};
ghost use Rattle.names.specs.Names.{instant_of, time_text, region_index, region_text, speed_text, kind_text, bytes_text, mpdu_text};

use layout::ZNIFFER;
use text::Out;

// The end of the year 9999, as an instant.
const YEARS_END: u64 = 315_537_897_600_000;

// PTI's regions 0 to 15 and one that is none, those of `PtiRegion` in types.rs (pti/speed.rs calls 5 Malaysia and 6 India); then Z-Wave's
// 0 to 11, 32 and 33, those of `Region` there, and one that is none.
static REGIONS: [[u8; 8]; 32] = [
    *b"?       ",
    *b"EU      ",
    *b"US      ",
    *b"ANZ     ",
    *b"HK      ",
    *b"IN/MY   ",
    *b"IN      ",
    *b"JP      ",
    *b"RU      ",
    *b"IL      ",
    *b"KR      ",
    *b"CN      ",
    *b"USLR    ",
    *b"USLRBACK",
    *b"USLR-END",
    *b"EULR    ",
    *b"?       ",
    *b"EU      ",
    *b"US      ",
    *b"ANZ     ",
    *b"HK      ",
    *b"?       ",
    *b"IN      ",
    *b"IL      ",
    *b"RU      ",
    *b"CN      ",
    *b"USLR    ",
    *b"?       ",
    *b"EULR    ",
    *b"JP      ",
    *b"KR      ",
    *b"?       ",
];

static SPEEDS: [[u8; 5]; 5] = [*b" 9.6k", *b" 40k ", *b" 100k", *b" LR  ", *b" ?   "];

static KINDS: [[u8; 14]; 6] = [
    *b"unknown       ",
    *b"PTI           ",
    *b"PTI diagnostic",
    *b"Zniffer       ",
    *b"other         ",
    *b"unknown       ",
];

// The instant of a time, given in milliseconds since the Unix epoch: the end of the year 9999 where it is before the year 1.
fn instant(millis: i64) -> u64
    ensures { result ≡ instant_of millis }
{
    written::UNIX_EPOCH
        .checked_add_signed(millis)
        .unwrap_or(YEARS_END)
}

// Puts a time, given in milliseconds since the Unix epoch: as ISO 8601 in UTC, or as those milliseconds where four digits do not write
// the year.
pub fn put_time(out: &mut Out, millis: i64)
    ensures { Puts (time_text millis) out.old out.new }
{
    let i = instant(millis);
    if i < YEARS_END {
        out.put_text(&written::iso(calendar::date_of(i)));
    } else {
        out.put_signed(millis);
    }
}

// The place of a region in its table. A Zniffer record has Z-Wave's numbers, a PTI record PTI's.
fn region_index(kind: u8, region: u8) -> usize
    ensures { (result ≡ region_index kind region) × (result < 32) }
{
    if kind != ZNIFFER {
        return usize::from(region.min(16));
    }
    match region {
        0..12 => 17 + usize::from(region),
        32 => 29,
        33 => 30,
        _ => 31,
    }
}

// Puts a region's name, of eight bytes.
pub fn put_region(out: &mut Out, kind: u8, region: u8)
    ensures { Puts (region_text kind region) out.old out.new }
{
    out.put_text(&REGIONS[region_index(kind, region)]);
}

// Puts a space and a speed's name, of four bytes.
pub fn put_speed(out: &mut Out, speed: u8)
    ensures { Puts (speed_text speed) out.old out.new }
{
    out.put_text(&SPEEDS[usize::from(speed.min(4))]);
}

// Puts the name of a record's kind, of 14 bytes.
pub fn put_kind(out: &mut Out, kind: u8)
    ensures { Puts (kind_text kind) out.old out.new }
{
    out.put_text(&KINDS[usize::from(kind.min(5))]);
}

// Puts bytes in hexadecimal, or `-` where there are none.
fn put_bytes(out: &mut Out, bytes: &[u8])
    ensures { Puts (bytes_text bytes.now) out.old out.new }
{
    if bytes.is_empty() {
        out.put_byte(b'-');
    } else {
        out.put_hex(bytes);
    }
}

// Puts the end of a frame's line: a space, the bytes of its MPDU, and the line's end.
pub fn put_mpdu(out: &mut Out, mpdu: &[u8])
    ensures { Puts (mpdu_text mpdu.now) out.old out.new }
{
    out.put_byte(b' ');
    put_bytes(out, mpdu);
    out.put_byte(b'\n');
}
