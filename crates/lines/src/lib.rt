// The lines of a list: a letter, fields each after a space, and the line's end, put into a lent buffer.
#![tactic(auto)]

ghost use Rattle.std.specs.Prelude.{[], ◌∷◌, ◌≡◌, map};
ghost use Rattle.text.specs.Put.{Puts};
ghost use Rattle.text.specs.Texts.{decimal_text, signed_text};
ghost use Rattle.lines.specs.Lines.{Fields, line_text, row_fields, row_text, side_of, origin_fields, radio_fields, mpdu_fields, lettered};

use rows::Row;
use text::Out;

const SPACE: u8 = b' ';

const NEWLINE: u8 = b'\n';

// A space, and a number.
pub fn put_field(out: &mut Out, n: u64)
    ensures { Fields (decimal_text n ∷ []) out.old out.new }
{
    out.put_byte(SPACE);
    out.put_decimal(n);
}

// A space, and a number with its sign.
pub fn put_signed_field(out: &mut Out, z: i64)
    ensures { Fields (signed_text z ∷ []) out.old out.new }
{
    out.put_byte(SPACE);
    out.put_signed(z);
}

// Numbers, each after a space.
pub fn put_fields(out: &mut Out, numbers: &[u64])
    ensures { Fields (map decimal_text numbers.now) out.old out.new }
{
    for &n in numbers {
        put_field(out, n);
    }
}

// A letter, numbers, and the line's end.
pub fn put_line(out: &mut Out, letter: u8, numbers: &[u64])
    ensures { Puts (line_text letter (map decimal_text numbers.now)) out.old out.new }
{
    out.put_byte(letter);
    put_fields(out, numbers);
    out.put_byte(NEWLINE);
}

// The letter of a direction.
fn side(direction: u8) -> u8
    ensures { result ≡ side_of direction }
{
    if direction == 0 { b'R' } else { b'T' }
}

// Where a row stands: its record, its position, its time and its gap.
fn put_origin(out: &mut Out, r: Row)
    ensures { Fields (origin_fields r) out.old out.new }
{
    put_fields(out, &[r.record as u64, r.position as u64]);
    put_signed_field(out, r.millis);
    put_signed_field(out, r.gap);
}

// How it was sent: its direction, region, channel and speed.
fn put_radio(out: &mut Out, r: Row)
    ensures { Fields (radio_fields r) out.old out.new }
{
    out.put_byte(SPACE);
    out.put_byte(side(r.direction));
    put_fields(
        out,
        &[
            u64::from(r.region),
            u64::from(r.channel),
            u64::from(r.speed),
        ],
    );
}

// Its RSSI, its beams, and its MPDU's place and length.
fn put_mpdu(out: &mut Out, r: Row)
    ensures { Fields (mpdu_fields r) out.old out.new }
{
    put_signed_field(out, i64::from(r.rssi));
    put_fields(
        out,
        &[u64::from(r.beam_count), r.mpdu as u64, r.mpdu_len as u64],
    );
}

// A row's letter and fields.
pub fn put_row(out: &mut Out, r: Row)
    ensures { Puts (lettered 0x46 (row_fields r)) out.old out.new }
{
    out.put_byte(b'F');
    put_origin(out, r);
    put_radio(out, r);
    put_mpdu(out, r);
}

// A row's line.
pub fn row_line(out: &mut Out, r: Row)
    ensures { Puts (row_text r) out.old out.new }
{
    put_row(out, r);
    out.put_byte(NEWLINE);
}
