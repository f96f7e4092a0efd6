// What the seam check says from a place of a trace, and from a later place, so that many pages need one walk.
ghost use Rattle.std.specs.Prelude.{◌≡◌};
ghost use Rattle.record.specs.Record.{plausible};
ghost use Rattle.seam.specs.Seam.{seam_at, told_seam};

use layout::Trace;
use seam::{Seam, SeamError};

// What the seam check says from a place of a trace.
#[derive(Clone, Copy)]
pub struct Mark<'a> {
    pub trace: Trace<'a>,
    pub place: usize,
    pub seam: Result<Seam, SeamError>,
    ghost right: { told_seam seam ≡ seam_at plausible trace.kinds.now trace.bytes.now place },
}

impl<'a> Mark<'a> {
    // What it says from a place.
    pub fn at(trace: Trace<'a>, place: usize) -> Mark<'a>
        ensures seam { told_seam result.seam ≡ seam_at plausible trace.entry.kinds.now trace.entry.bytes.now place }
        ensures trace { result.trace ≡ trace.entry }
        ensures place { result.place ≡ place }
    {
        Mark {
            trace,
            place,
            seam: seam::seam_check(trace, place),
        }
    }

    // What it says from a later place: the records between the two are passed, and are as many less. Where they do not lead to the
    // place, or the earlier place was refused, it is asked anew.
    pub fn later(self, place: usize) -> Mark<'a>
        ensures seam { told_seam result.seam ≡ seam_at plausible self.entry.trace.kinds.now self.entry.trace.bytes.now place }
        ensures trace { result.trace ≡ self.entry.trace }
        ensures place { result.place ≡ place }
    {
        let mut at = self.place;
        let mut passed = 0;
        while at < place {
            let Ok(Some(header)) = record::read_record(self.trace, at) else {
                return Mark::at(self.trace, place);
            };
            at = header.next_offset;
            passed += 1;
        }
        if at == place
            && let Ok(seam) = self.seam
        {
            let seam = match seam {
                Seam::Unbroken { records } => Seam::Unbroken {
                    records: records - passed,
                },
                Seam::Broken {
                    place: stop,
                    records,
                } => Seam::Broken {
                    place: stop,
                    records: records - passed,
                },
            };
            return Mark {
                trace: self.trace,
                place,
                seam: Ok(seam),
            };
        }
        Mark::at(self.trace, place)
    }
}
