// Lines for a script: a letter and bare fields, a space before each. The order of the fields is fixed.
#![tactic(auto)]

ghost use Rattle.std.specs.Prelude.{◌≡◌};
ghost use Rattle.text.specs.Put.{Puts};
ghost use Rattle.fields.specs.Fields.{frame_fields, mark_fields, marks_fields, record_fields, chart_fields};

use reader::ZlfRecord;
use rows::Row;
use seam::{Seam, SeamError};
use text::Out;

// The fields of a row in its order, then its record's kind, and its MPDU.
pub fn frame_fields(out: &mut Out, kind: u8, row: Row, mpdu: &[u8])
    ensures { Puts (frame_fields kind row mpdu.now) out.old out.new }
{
    lines::put_row(out, row);
    lines::put_field(out, u64::from(kind));
    names::put_mpdu(out, mpdu);
}

// What the seam check said from a place: `U`, place and records, or `B`, place, the place of the break and records; `N` where it was
// refused.
pub fn mark_fields(out: &mut Out, mark: Result<Seam, SeamError>, place: usize)
    ensures { Puts (mark_fields mark place) out.old out.new }
{
    match mark {
        Ok(Seam::Unbroken { records }) => lines::put_line(
            out,
            b'U',
            &[place as u64, records as u64],
        ),
        Ok(
            Seam::Broken {
                place: stop,
                records,
            },
        ) => lines::put_line(out, b'B', &[place as u64, stop as u64, records as u64]),
        Err(_) => lines::put_line(out, b'N', &[]),
    }
}

// Bit 7, session, end byte, kind, payload place and payload length.
fn marks(z: ZlfRecord) -> [u64; 6]
    ensures { result ≡ marks_fields z }
{
    [
        u64::from(z.is_outcome),
        u64::from(z.session_id),
        u64::from(z.end),
        u64::from(z.kind),
        z.payload_offset as u64,
        z.payload_len as u64,
    ]
}

// `D`, place, stored ticks, milliseconds, bit 7, session, end byte, kind, payload place and payload length.
pub fn record_fields(out: &mut Out, z: ZlfRecord)
    ensures { Puts (record_fields z) out.old out.new }
{
    out.put_byte(b'D');
    lines::put_fields(out, &[z.offset as u64, z.raw_ticks]);
    lines::put_signed_field(out, ticks::unix_millis(z.raw_ticks));
    lines::put_fields(out, &marks(z));
    out.put_byte(b'\n');
}

// `C`, a region, and its speeds on the channels 0 to 3.
pub fn chart_fields(out: &mut Out, region: u8)
    ensures { Puts (chart_fields region) out.old out.new }
{
    out.put_byte(b'C');
    lines::put_field(out, u64::from(region));
    for channel in 0..4 {
        lines::put_field(out, u64::from(speed::speed_for(channel, region)));
    }
    out.put_byte(b'\n');
}
