// How `zlf` is called.
use crate::args::{Command, Question};
use crate::refuse::Refused;
use crate::{args, facts, out, refuse};

const GENERAL: &[u8] =
    b"zlf reads ZLF traces of up to 1 GiB, and marks each page as unbroken or broken.

  zlf list FILE [--from PLACE | --at TIME] [--count N] [--pages N]   pages of frames, each with its edges and its mark
  zlf check FILE [PLACE]                                             the seam check: unbroken to the end, or where it breaks
  zlf info FILE                                                      size, version, header sum, span, records and frames
  zlf seek FILE TIME                                                 the first record at a time or later
  zlf records FILE [--from PLACE] [--count N]                        records as the sequential reader gives them
  zlf speeds                                                         the bit rate of each region and channel, as on the wall chart
  zlf help [COMMAND]                                                 this page, or more on a command

A TIME is 2024-05-01T12:34:56.789Z, 2024-05-01T12:34:56Z, 2024-05-01 or milliseconds since 1970, in UTC. A PLACE is an offset in bytes.
Each command but help also takes
  --plain          bare fields for scripts
and each that reads a FILE
  --kinds FILE     another kind table: 256 bytes, one for each end byte
  --version N      another version than 104
It ends with 0 where the answer is good, 1 where the trace is broken or nothing is found, 2 on a refusal or a bad call.
";

const LIST: &[u8] = b"zlf list FILE [--from PLACE | --at TIME] [--count N] [--pages N]

Pages of frames. The first page starts at the first record boundary from PLACE on (2048), or at the first record at TIME or later.
  --count N   a page takes whole records until it has N frames, 1 to 500 (64). A page of more than 600 frames is refused (7).
  --pages N   how many pages, each from the place that the last one named (1)

Each page has a line for each frame: time in UTC, milliseconds since the frame before on the page, rx or tx, region, bit rate, channel,
RSSI, beam count, the record's place, the frame's position in the record, and the MPDU in hex. Under it are the page's edges, and its
mark: what the seam check says from the page's start on. The status is 1 where a mark says BROKEN.

With --plain: F record position milliseconds gap R|T region channel speed RSSI beams MPDU-place MPDU-length kind MPDU
              P start frames next-place|-
              U place records, or B place break records
";

const CHECK: &[u8] = b"zlf check FILE [PLACE]

Says whether valid records follow one another from PLACE (2048) to the last byte, and how many; or the first place without one.

With --plain: U place records, or B place break records
";

const INFO: &[u8] = b"zlf info FILE

Size, version, the header's sum as it is stored and as it is computed, the times of the first and the last record, records and frames by
kind, and what the seam check says from 2048 on. Where the trace is broken, records and frames are those before the break.

With --plain: size N / version N / sum STORED COMPUTED / span FIRST LAST or span - / kind K RECORDS FRAMES, for the kinds 1 to 4 /
              U place records, or B place break records
";

const SEEK: &[u8] = b"zlf seek FILE TIME

The first record that is not earlier than TIME, found by halving. The status is 1 where there is none.

With --plain: S place milliseconds halvings, or S -
";

const RECORDS: &[u8] = b"zlf records FILE [--from PLACE] [--count N]

Records as the sequential reader gives them, from PLACE (2048) on, N of them (64, 1 to 500 at once). It checks the header's sum, takes
unknown kinds and records without a payload, and does not search: PLACE has to be a record's. A line has the record's place, its time,
in or out, its session, its end byte (EB), the kind that this stands for, and the place and the length of its payload.

With --plain: D place ticks milliseconds outgoing session end-byte kind payload-place payload-length
";

const SPEEDS: &[u8] = b"zlf speeds

The bit rate of a PTI frame by its region, 0 to 31 down, and its channel, 0 to 3 across, to be held beside the wall chart: a PTI record does
not carry it. LR is Long Range. 9.6k also stands where the wall chart is empty, and is the answer for every other region and channel.
Names are those that zlf list shows for PTI records, ? where there is none. A PTI frame gives its region in four bits, so none in a trace is
above 15.

With --plain: C region speed speed speed speed, for the channels 0 to 3: 0 is 9.6k, 1 is 40k, 2 is 100k, 3 is Long Range
";

// The page on a command.
fn page(command: Command) -> Option<&'static [u8]> {
    match command {
        Command::Help => None,
        Command::Ask(Question::List) => Some(LIST),
        Command::Ask(Question::Check) => Some(CHECK),
        Command::Ask(Question::Info) => Some(INFO),
        Command::Ask(Question::Seek) => Some(SEEK),
        Command::Ask(Question::Records) => Some(RECORDS),
        Command::Speeds => Some(SPEEDS),
    }
}

// The page on the command that the argument at a place names, or on all of them.
pub fn help(rt: &HostRuntime, place: Option<usize>) -> Result<u8, Refused> {
    if place.is_none() {
        return Ok(out::finish(rt, GENERAL, 0));
    }
    let mut room = io::buffer();
    let name = args::argument(rt, place, &mut room);
    match Command::named(name).and_then(page) {
        Some(text) => Ok(out::finish(rt, text, 0)),
        None => Err(refuse::word(
            rt,
            name,
            b"' is no command with a page of its own (zlf help lists them)\n",
            facts::NONE,
        )),
    }
}
