// The answer to a call, once the trace is read.
ghost use Rattle.std.specs.Prelude.{◌≤◌, length};
ghost use Rattle.layout.specs.Layout.{header_size, trace_limit};

use crate::args::Question;
use crate::asked::Ask;
use crate::facts::Facts;
use crate::out::Lines;
use crate::refuse::Refused;
use crate::{facts, info, list, records, refuse};
use layout::Trace;
use seek::SeekTime;
use text::Out;

// What is asked of a trace, by which kind table, and its file.
#[derive(Clone, Copy)]
pub struct Query<'a> {
    pub rt: &'a HostRuntime,
    pub path: &'a [u8],
    pub kinds: &'a [u8; 256],
    pub ask: Ask,
}

// A trace that opens as a cursor: it has a header, and is not over the limit.
#[derive(Clone, Copy)]
pub struct Opened<'a> {
    pub trace: Trace<'a>,
    ghost has_header: { header_size ≤ length trace.bytes.now },
    ghost fits: { length trace.bytes.now ≤ trace_limit },
}

// Opens a trace as a cursor does.
fn open<'a>(query: Query, trace: Trace<'a>) -> Result<Opened<'a>, Refused> {
    match seam::open(trace.bytes, query.ask.version) {
        Ok(_) => Ok(Opened { trace }),
        Err(e) => Err(refuse::opening(query.rt, query.path, e, trace.bytes)),
    }
}

// The seam check from a place.
fn check(query: Query, opened: Opened, lines: &mut Lines) -> Result<u8, Refused> {
    let place = query.ask.place;
    let size = opened.trace.bytes.len();
    let seam = seam::seam_check(opened.trace, place);
    if let Err(e) = seam {
        let f = Facts::of(place as u64, size as u64, 0);
        return Err(refuse::refusal(query.rt, query.path, e, f));
    }
    list::put_mark(lines, seam, place, size);
    Ok(lines.finish(list::status_of(seam)))
}

// The seek to a time.
fn sought(query: Query, opened: Opened, lines: &mut Lines) -> u8 {
    let trace = opened.trace;
    let found = query
        .ask
        .time
        .and_then(|time| seek::seek_time(trace, time).ok());
    if let Some(
        SeekTime {
            offset: Some(offset),
            halvings,
        },
    ) = found
    {
        info::put_found(lines, trace, offset, halvings);
        return lines.finish(0);
    }
    lines.put(b"S -\n", b"no record at that time or later\n", facts::NONE);
    lines.finish(1)
}

// The answer, and its status: 0 where it is good, 1 where the trace is broken or nothing is found; it may be a refusal.
pub fn answer(query: Query, trace: Trace) -> Result<u8, Refused> {
    let mut room = io::large_buffer();
    let out = Out {
        bytes: &mut room,
        at: 0,
    };
    let mut lines = Lines {
        rt: query.rt,
        out,
        plain: query.ask.plain,
    };
    match query.ask.question {
        Question::List => Ok(list::list(query, open(query, trace)?, &mut lines)),
        Question::Check => check(query, open(query, trace)?, &mut lines),
        Question::Info => Ok(info::info(open(query, trace)?, &mut lines)),
        Question::Seek => Ok(sought(query, open(query, trace)?, &mut lines)),
        Question::Records => records::records(query, trace, &mut lines),
    }
}
