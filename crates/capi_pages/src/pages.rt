// A page into a lent table of rows, and the seam check.
ghost use Rattle.std.specs.Prelude.{◌≡◌, length, None};
ghost use Rattle.record.specs.Record.{plausible};
ghost use Rattle.paging.specs.Page.{page_at, told_page};
ghost use Rattle.seam.specs.Seam.{seam_at, told_seam};
ghost use Rattle.capi_pages.specs.Pages.{page_told, Paged, seam_told};

use layout::{Refusal, Trace};
use paging::{Page, PageError};
use rows::Row;
use seam::{Seam, SeamError};

// The refusal's number or 0, where the page started, how many rows it wrote, whether a next place is named, and that place.
#[repr(C)]
#[derive(Clone, Copy)]
pub struct PageAnswer {
    pub refusal: u32,
    pub start: usize,
    pub size: usize,
    pub is_more: bool,
    pub next: usize,
}

// The refusal's number or 0, whether the records are unbroken, the first offset without a valid record where they are broken, and
// the number of records.
#[repr(C)]
#[derive(Clone, Copy)]
pub struct SeamAnswer {
    pub refusal: u32,
    pub is_unbroken: bool,
    pub place: usize,
    pub records: usize,
}

impl From<Result<Page, PageError>> for PageAnswer {
    ghost from_gives = { λ page answer. page_told answer ≡ told_page page };

    fn from(page: Result<Page, PageError>) -> Self {
        match page {
            Ok(page) => PageAnswer {
                refusal: 0,
                start: page.start,
                size: page.size,
                is_more: page.next.is_some(),
                next: page.next.unwrap_or(0),
            },
            Err(refusal) => PageAnswer {
                refusal: refusal.number(),
                start: 0,
                size: 0,
                is_more: false,
                next: 0,
            },
        }
    }
}

impl From<Result<Seam, SeamError>> for SeamAnswer {
    ghost from_gives = { λ seam answer. seam_told answer ≡ told_seam seam };

    fn from(seam: Result<Seam, SeamError>) -> Self {
        let (refusal, is_unbroken, place, records) = match seam {
            Ok(Seam::Unbroken { records }) => (0, true, 0, records),
            Ok(Seam::Broken { place, records }) => (0, false, place, records),
            Err(refusal) => (refusal.number(), false, 0, 0),
        };
        SeamAnswer {
            refusal,
            is_unbroken,
            place,
            records,
        }
    }
}

// A page from any offset, into a lent table of rows.
#[unsafe(no_mangle)]
pub extern "C" fn zlf_page(
    kinds: &[u8; 256],
    trace: &[u8],
    offset: usize,
    count: usize,
    table: &mut [Row],
) -> PageAnswer
    ensures { Paged (page_at plausible kinds.now trace.now None offset count (length table.old)) result table.old table.new }
{
    let trace = Trace {
        kinds,
        bytes: trace,
    };
    cursor::frames_at(trace, offset, count, table).into()
}

// Whether valid records follow one another from a place to the trace's end, and how many.
#[unsafe(no_mangle)]
pub extern "C" fn zlf_seam(kinds: &[u8; 256], trace: &[u8], place: usize) -> SeamAnswer
    ensures { seam_told result ≡ seam_at plausible kinds.now trace.now place }
{
    let trace = Trace {
        kinds,
        bytes: trace,
    };
    seam::seam_check(trace, place).into()
}
