// The list of a trace as text: what the program trace-list writes for its input, put into a lent buffer.
#![tactic(auto)]

ghost use mathlib.Core.List.{flat_map};
ghost use Rattle.std.specs.Prelude.{length};
ghost use Rattle.io.specs.Counts.{IsPrefixLen};
ghost use Rattle.layout.specs.Layout.{header_size};
ghost use Rattle.seam.specs.Seam.{told_seam};
ghost use Rattle.text.specs.Put.{Put, Puts};
ghost use Rattle.lines.specs.Lines.{row_text, refusal_text};
ghost use Rattle.listing.specs.Listing.{list_text, trace_text, pages_text, page_of, seam_text, seam_line};

use layout::{Refusal, Trace, ZLF_HEADER_SIZE};
use resync::DEFAULT_WINDOW;
use rows::Row;
use seam::{Seam, SeamError};
use text::Out;

// The kinds, one to an end byte, and the version that stand before the trace.
const KINDS: usize = 256;

const HEAD: usize = 260;

// The longest input that is listed.
const MOST: usize = 8192;

// Rows that a page has at least, where there are so many.
const PAGE: usize = 64;

// A refusal's line, which is all that is said then.
fn refusal_line(out: &mut Out, n: u32)
    ensures { Puts (refusal_text n) out.old out.new }
{
    lines::put_line(out, b'R', &[u64::from(n)]);
}

// The lines of some rows.
fn row_lines(out: &mut Out, rows: &[Row])
    ensures { Puts (flat_map row_text rows.now) out.old out.new }
{
    for &row in rows {
        lines::row_line(out, row);
    }
}

// The line of a seam check from a place.
fn put_seam(out: &mut Out, place: usize, seam: Result<Seam, SeamError>)
    ensures { Puts (seam_line place (told_seam seam)) out.old out.new }
{
    match seam {
        Ok(Seam::Unbroken { records }) => lines::put_line(
            out,
            b'U',
            &[place as u64, records as u64],
        ),
        Ok(
            Seam::Broken {
                place: stop,
                records,
            },
        ) => lines::put_line(out, b'B', &[place as u64, stop as u64, records as u64]),
        Err(error) => refusal_line(out, error.number()),
    }
}

// The seam check from the first page's start, which is where the search for a boundary finds one.
fn seam_line(out: &mut Out, trace: Trace)
    ensures { Puts (seam_text trace.entry.kinds.now trace.entry.bytes.now) out.old out.new }
{
    match resync::next_record_at(trace, ZLF_HEADER_SIZE, DEFAULT_WINDOW) {
        Ok(search) => match search.offset {
            Some(offset) => put_seam(out, offset, seam::seam_check(trace, offset)),
            None => lines::put_line(out, b'N', &[]),
        },
        Err(error) => refusal_line(out, error.number()),
    }
}

// Pages, each from the place that the last one named, and after the last the seam check's line; or a refused page's number and no more.
// There are no more pages than bytes. With a table of 600 rows no page of an input is refused with 7: a frame takes 10 bytes or more of the
// 5,884 that an input can have after the header (`never_7` of listing_laws/proofs/Room.antt).
#[tactic(auto, using(crate::proofs::Pages::rows_inside))]
fn put_pages(out: &mut Out, trace: Trace)
    ensures { Puts (pages_text (page_of trace.entry.kinds.now trace.entry.bytes.now) (seam_text trace.entry.kinds.now trace.entry.bytes.now) (length trace.entry.bytes.now) header_size) out.old out.new }
{
    let mut offset = ZLF_HEADER_SIZE;
    for _ in 0..trace.bytes.len() {
        let table = cursor::frames_table(trace, offset, PAGE);
        match table.page {
            Ok(page) => {
                row_lines(out, &table.rows[..page.size]);
                let Some(next) = page.next else {
                    return seam_line(out, trace);
                };
                offset = next;
            },
            Err(error) => return refusal_line(out, error.number()),
        }
    }
}

// What is said of a trace.
fn list_trace(out: &mut Out, trace: Trace, version: u32)
    ensures { Puts (trace_text trace.entry.kinds.now version trace.entry.bytes.now) out.old out.new }
{
    match seam::open(trace.bytes, version) {
        Ok(found) => {
            lines::put_line(out, b'V', &[u64::from(found)]);
            put_pages(out, trace);
        },
        Err(error) => refusal_line(out, error.number()),
    }
}

// The list of an input: 256 kinds, 4 bytes of version, then the trace.
fn put_list(out: &mut Out, input: &[u8])
    ensures { Puts (list_text input.now) out.old out.new }
{
    if !(HEAD..=MOST).contains(&input.len()) {
        return refusal_line(out, 0);
    }
    let trace = Trace {
        kinds: input.first_chunk().unwrap(),
        bytes: &input[HEAD..],
    };
    list_trace(out, trace, layout::u32_at(input, KINDS));
}

// The whole output for an input.
pub fn list(input: &[u8], out: &mut [u8]) -> usize
    ensures put { Put (list_text input.now) out.old 0 out.new result }
    ensures prefix_len { IsPrefixLen result out.new }
{
    let mut lines = Out { bytes: out, at: 0 };
    put_list(&mut lines, input);
    lines.at
}
