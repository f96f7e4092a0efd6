// The numbers and times of a call's words.
ghost use Rattle.std.specs.Prelude.{◌≤◌, IfOk};

use crate::args::{Call, Question};
use crate::facts::Facts;
use crate::refuse::Refused;
use crate::{args, facts, refuse};

// The most frames that a page is asked for: the table of a page has 600.
const MOST: u64 = 500;

// The version that docs/src expects.
const ZLF_VERSION: u64 = 104;

// The largest place, and the most pages, that a word of digits is read as.
const LARGEST: u64 = 99_999_999_999_999_999;

// What a call asks of its trace.
#[derive(Clone, Copy)]
pub struct Ask {
    pub question: Question,
    pub plain: bool,
    pub place: usize,
    pub time: Option<i64>,
    pub count: u64,
    pub pages: u64,
    pub version: u32,
}

// The number of the argument at a place, from the least to the most allowed; the usual one where there is no such argument.
fn number_at(
    rt: &HostRuntime,
    place: Option<usize>,
    usual: u64,
    least: u64,
    most: u64,
) -> Result<u64, Refused>
    requires { usual ≤ most }
    ensures { IfOk result (λ n. n ≤ most) }
{
    if place.is_none() {
        return Ok(usual);
    }
    let mut room = io::buffer();
    let word = args::argument(rt, place, &mut room);
    match written::number_in(word) {
        Some(n) if (least..=most).contains(&n) => Ok(n),
        _ => Err(refuse::word(
            rt,
            word,
            b"' is no number from % to %\n",
            Facts::of(least, most, 0),
        )),
    }
}

// The time of the argument at a place; where there is none it is not asked for.
fn time_at(rt: &HostRuntime, place: Option<usize>) -> Result<Option<i64>, Refused> {
    if place.is_none() {
        return Ok(None);
    }
    let mut room = io::buffer();
    let word = args::argument(rt, place, &mut room);
    match written::parse(word) {
        Some(instant) => Ok(Some(since_epoch(instant))),
        None => Err(refuse::word(
            rt,
            word,
            b"' is no time: give 2024-05-01T12:34:56.789Z, 2024-05-01T12:34:56Z, 2024-05-01, or milliseconds since 1970\n",
            facts::NONE,
        )),
    }
}

// An instant in milliseconds since the Unix epoch, within a signed number. Every record is of the year 2000 or later, so that a time
// before the epoch counts as the epoch.
fn since_epoch(instant: u64) -> i64 {
    i64::try_from(instant.saturating_sub(written::UNIX_EPOCH)).unwrap_or(i64::MAX)
}

// What a call asks; it says of each word that cannot be read.
pub fn asked(rt: &HostRuntime, call: Call, question: Question) -> Result<Ask, Refused> {
    let (from, at) = match question {
        Question::Check => (call.operand, call.at),
        Question::Seek => (call.from, call.operand),
        _ => (call.from, call.at),
    };
    let place = number_at(rt, from, 2048, 0, LARGEST);
    let time = time_at(rt, at);
    let count = number_at(rt, call.count, 64, 1, MOST);
    let pages = number_at(rt, call.pages, 1, 1, LARGEST);
    let version = number_at(rt, call.version, ZLF_VERSION, 0, 4_294_967_295);
    Ok(Ask {
        question,
        plain: call.plain,
        place: place? as usize,
        time: time?,
        count: count?,
        pages: pages?,
        version: version? as u32,
    })
}
