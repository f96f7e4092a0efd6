// Lines for a person: aligned, and by name.
#![tactic(auto)]

ghost use Rattle.std.specs.Prelude.{◌++◌, ◌≡◌, length, replicate};
ghost use Rattle.speed.specs.Chart.{row_for};
ghost use Rattle.text.specs.Put.{Puts};
ghost use Rattle.text.specs.Texts.{space, decimal_text, signed_text};
ghost use Rattle.show.specs.Person.{at_right, direction_text, heard_text, numbers_text, frame_text, unbroken_text, broken_text, mark_text, way_text, when_text, held_text, stored_text, record_text, count_text, rate_text, rates_text, chart_text};

use layout::PTI;
use reader::ZlfRecord;
use rows::Row;
use seam::{Seam, SeamError};
use text::Out;

// How many digits a number has.
fn digits(n: u64) -> usize
    ensures { result ≡ length (decimal_text n) }
{
    let mut room = [0u8; 20];
    io::decimal(n, &mut room)
}

// Puts so many spaces.
fn put_spaces(out: &mut Out, n: usize)
    ensures { Puts (replicate n space) out.old out.new }
{
    for _ in 0..n {
        out.put_byte(b' ');
    }
}

// Puts a number, with spaces before it up to a width.
fn put_right(out: &mut Out, width: usize, n: u64)
    ensures { Puts (at_right width (decimal_text n)) out.old out.new }
{
    put_spaces(out, width.saturating_sub(digits(n)));
    out.put_decimal(n);
}

// Puts a number with its sign, and spaces before it up to a width.
fn put_right_signed(out: &mut Out, width: usize, z: i64)
    ensures { Puts (at_right width (signed_text z)) out.old out.new }
{
    let sign = usize::from(z < 0);
    put_spaces(
        out,
        width
            .saturating_sub(sign)
            .saturating_sub(digits(text::magnitude(z))),
    );
    out.put_signed(z);
}

// A frame's direction.
#[tactic(auto, unfolding(crate::specs::Person::direction_text))]
fn direction_name(direction: u8) -> &'static [u8; 5]
    ensures { result.now ≡ direction_text direction }
{
    if direction == 0 { b" rx  " } else { b" tx  " }
}

// When a frame came, how long after the one before, which way, in which region and at which speed.
fn put_heard(out: &mut Out, kind: u8, row: Row)
    ensures { Puts (heard_text kind row) out.old out.new }
{
    names::put_time(out, row.millis);
    put_right_signed(out, 15, row.gap);
    out.put_text(direction_name(row.direction));
    names::put_region(out, kind, row.region);
    names::put_speed(out, row.speed);
}

// A frame's numbers: channel, RSSI, beams, record and position, and a space.
fn put_numbers(out: &mut Out, row: Row)
    ensures { Puts (numbers_text row) out.old out.new }
{
    put_right(out, 4, u64::from(row.channel));
    put_right_signed(out, 6, i64::from(row.rssi));
    put_right(out, 7, u64::from(row.beam_count));
    put_right(out, 12, row.record as u64);
    put_right(out, 5, row.position as u64);
    out.put_byte(b' ');
}

// The line for a frame of a record of a kind, and its MPDU.
pub fn frame_line(out: &mut Out, kind: u8, row: Row, mpdu: &[u8])
    ensures { Puts (frame_text kind row mpdu.now) out.old out.new }
{
    put_heard(out, kind, row);
    put_numbers(out, row);
    names::put_mpdu(out, mpdu);
}

// A text, and the number after it.
fn put_named(out: &mut Out, name: &[u8], n: usize)
    ensures { Puts (name.now ++ decimal_text n) out.old out.new }
{
    out.put_text(name);
    out.put_decimal(n as u64);
}

// The line for a trace that is unbroken from a place to its end.
fn unbroken_line(out: &mut Out, place: usize, size: usize, records: usize)
    ensures { Puts (unbroken_text place size records) out.old out.new }
{
    put_named(out, b"unbroken from ", place);
    put_named(out, b" to the end at ", size);
    put_named(out, b", records: ", records);
    out.put_byte(b'\n');
}

// The line for a trace that is broken after so many records from a place.
fn broken_line(out: &mut Out, place: usize, stop: usize, records: usize)
    ensures { Puts (broken_text place stop records) out.old out.new }
{
    put_named(out, b"BROKEN at ", stop);
    put_named(out, b": no valid record there; from ", place);
    put_named(out, b" up to it, records: ", records);
    out.put_byte(b'\n');
}

// The line for what the seam check said from a place of a trace of so many bytes.
pub fn mark_line(out: &mut Out, mark: Result<Seam, SeamError>, place: usize, size: usize)
    ensures { Puts (mark_text mark place size) out.old out.new }
{
    match mark {
        Ok(Seam::Unbroken { records }) => unbroken_line(out, place, size, records),
        Ok(
            Seam::Broken {
                place: stop,
                records,
            },
        ) => broken_line(out, place, stop, records),
        Err(_) => out.put_text(b"not checked\n"),
    }
}

// The line for a record as the sequential reader gives it.
pub fn record_line(out: &mut Out, z: ZlfRecord)
    ensures { Puts (record_text z) out.old out.new }
{
    put_when(out, z.offset, z.raw_ticks);
    put_held(out, z.is_outcome, z.session_id);
    put_stored(out, z.end, z.kind);
    put_right(out, 11, z.payload_offset as u64);
    put_right(out, 11, z.payload_len as u64);
    out.put_byte(b'\n');
}

// A record's place and its time.
fn put_when(out: &mut Out, place: usize, ticks: u64)
    ensures { Puts (when_text place ticks) out.old out.new }
{
    put_right(out, 10, place as u64);
    out.put_byte(b' ');
    names::put_time(out, ticks::unix_millis(ticks));
}

#[tactic(auto, unfolding(crate::specs::Person::way_text))]
fn way_name(outgoing: bool) -> &'static [u8; 4]
    ensures { result.now ≡ way_text outgoing }
{
    if outgoing { b" out" } else { b" in " }
}

// Which way a record went, and its session.
fn put_held(out: &mut Out, outgoing: bool, session: u8)
    ensures { Puts (held_text outgoing session) out.old out.new }
{
    out.put_text(way_name(outgoing));
    put_right(out, 4, u64::from(session));
    out.put_byte(b' ');
}

// An end byte, and the kind that it stands for.
fn put_stored(out: &mut Out, end: u8, kind: u8)
    ensures { Puts (stored_text end kind) out.old out.new }
{
    out.put_hex(&[end]);
    out.put_byte(b' ');
    names::put_kind(out, kind);
}

// The line for the records of a kind and their frames.
pub fn count_line(out: &mut Out, kind: u8, records: u64, frames: u64)
    ensures { Puts (count_text kind records frames) out.old out.new }
{
    out.put_text(b"  ");
    names::put_kind(out, kind);
    put_right(out, 12, records);
    put_right(out, 12, frames);
    out.put_byte(b'\n');
}

// A space, and a speed's name.
fn put_rate(out: &mut Out, speed: u8)
    ensures { Puts (rate_text speed) out.old out.new }
{
    out.put_byte(b' ');
    names::put_speed(out, speed);
}

// The same for the channels 0 to 3 in a region.
fn put_rates(out: &mut Out, region: u8)
    ensures { Puts (rates_text (row_for region)) out.old out.new }
{
    for channel in 0..4 {
        put_rate(out, speed::speed_for(channel, region));
    }
}

// The line for a region of the wall chart: its number and its name in PTI records, and the rates of the channels 0 to 3.
pub fn chart_line(out: &mut Out, region: u8)
    ensures { Puts (chart_text region) out.old out.new }
{
    put_right(out, 6, u64::from(region));
    out.put_text(b"  ");
    names::put_region(out, PTI, region);
    put_rates(out, region);
    out.put_byte(b'\n');
}
