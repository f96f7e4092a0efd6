// What a trace holds, found in one walk over its records; and the record that a seek found.
ghost use Rattle.std.specs.Prelude.{◌≡◌, ℕ, get_or, Ok};
ghost use Rattle.layout.specs.Layout.{header_size};
ghost use Rattle.record.specs.Record.{plausible};
ghost use Rattle.seam.specs.Seam.{seam_at, told_seam};
ghost use Rattle.zlf.specs.Totals.{nothing, count_of};

use crate::answer::Opened;
use crate::facts::Facts;
use crate::out::Lines;
use crate::{facts, list, out};
use layout::{OTHER, PTI, Readable, Trace, TraceTooLong, ZLF_HEADER_SIZE};
use reader::HEADER_CRC_OFFSET;
use seam::Seam;
use span::Span;

// The records of a kind, and their frames.
#[derive(Clone, Copy)]
struct Count {
    records: u64,
    frames: u64,
}

// What the seam check says, and records and frames by kind.
#[derive(Clone, Copy)]
struct Totals {
    mark: Seam,
    counts: [Count; 5],
}

// Walks the records from the header's end on, up to the last byte or to the first place without a valid record.
fn walked(opened: Opened) -> Totals
    ensures mark { told_seam (Ok result.mark) ≡ seam_at plausible opened.entry.trace.kinds.now opened.entry.trace.bytes.now header_size }
    ensures counts { (k : ℕ) → get_or result.counts k nothing ≡ count_of opened.entry.trace.kinds.now opened.entry.trace.bytes.now k }
{
    let trace = Readable {
        kinds: opened.trace.kinds,
        bytes: opened.trace.bytes,
    };
    let mut counts = [Count {
        records: 0,
        frames: 0,
    }; 5];
    let mut at = ZLF_HEADER_SIZE;
    let mut records = 0;
    loop {
        let Some(found) = steps::valid_record(trace, at) else {
            // No record begins here: the trace has ended, or is broken.
            if at < trace.bytes.len() {
                let mark = Seam::Broken { place: at, records };
                return Totals { mark, counts };
            }
            let mark = Seam::Unbroken { records };
            return Totals { mark, counts };
        };
        let header = found.header;
        let frames = rows::frame_count(found.payload, header.kind, header.is_outcome);
        let kind = usize::from(header.kind);
        counts[kind].records += 1;
        counts[kind].frames += frames as u64;
        at = header.next_offset;
        records += 1;
    }
}

// Size and version.
fn put_head(lines: &mut Lines, s: &[u8]) {
    let version = layout::u32_at(s, 0);
    lines.put(
        b"size %\nversion %\n",
        b"size in bytes   %\nversion         %\n",
        Facts::of(s.len() as u64, u64::from(version), 0),
    );
}

// The header's sum, as it is stored and as it is computed.
fn put_sums(lines: &mut Lines, stored: u16, computed: u16) {
    let f = Facts::of(u64::from(stored), u64::from(computed), 0);
    if stored == computed {
        lines.put(b"sum # #\n", b"header sum      #, as computed\n", f);
    } else {
        lines.put(b"sum # #\n", b"header sum      #, WRONG: computed #\n", f);
    }
}

// The times of the first and the last record.
fn put_span(lines: &mut Lines, span: Result<Option<Span>, TraceTooLong>) {
    match span {
        Ok(Some(Span { first, last })) => lines.put(
            b"span % %\n",
            b"first record    @\nlast record     @\n",
            Facts::of(first, last, 0),
        ),
        _ => lines.put(b"span -\n", b"first record    none\n", facts::NONE),
    }
}

// Records and frames of a kind; for a person, where there are any.
fn put_count(lines: &mut Lines, kind: u8, count: Count) {
    if lines.plain {
        let f = Facts::of(u64::from(kind), count.records, count.frames);
        facts::put_line(&mut lines.out, b"kind % % %\n", f);
    } else if count.records != 0 {
        show::count_line(&mut lines.out, kind, count.records, count.frames);
    }
}

// The counts of the four kinds that a valid record has.
fn put_counts(lines: &mut Lines, counts: [Count; 5]) {
    lines.put_heading(b"kind                 records      frames\n");
    for kind in PTI..=OTHER {
        put_count(lines, kind, counts[usize::from(kind)]);
    }
}

// What a trace holds. The status is 1 where the header's sum is wrong too.
pub fn info(opened: Opened, lines: &mut Lines) -> u8 {
    let s = opened.trace.bytes;
    let totals = walked(opened);
    let mark = Ok(totals.mark);
    let stored = layout::u16_at(s, HEADER_CRC_OFFSET);
    let computed = checksum::header_sum(out::first(s, HEADER_CRC_OFFSET));
    put_head(lines, s);
    put_sums(lines, stored, computed);
    put_span(lines, span::time_span(opened.trace));
    put_counts(lines, totals.counts);
    list::put_mark(lines, mark, ZLF_HEADER_SIZE, s.len());
    let status = if stored == computed {
        list::status_of(mark)
    } else {
        1
    };
    lines.finish(status)
}

// The record that a seek found.
pub fn put_found(lines: &mut Lines, trace: Trace, offset: usize, halvings: usize) {
    if let Ok(Some(header)) = record::read_record(trace, offset) {
        lines.put(
            b"S % % %\n",
            b"record at %, of @, found in % halvings\n",
            Facts::of(offset as u64, header.unix_millis, halvings as u64),
        );
    }
}
