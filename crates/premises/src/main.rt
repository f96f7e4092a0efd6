// The example traces of request 10, and what the seeks answer on each: a trace for each premise that is left out, and one that meets all.
// Without an argument it lists the answers; with the first letter of a trace's name it writes that trace.
#![tactic(auto)]

mod traces;

ghost use Rattle.std.specs.Prelude.{IfOk, vec_len, ◌≡◌, ◌≤◌, length};
ghost use Rattle.text.specs.Put.{Put, Puts};
ghost use Rattle.premises.specs.Example.{bytes_of};

use layout::Trace;
use seek::SeekStep;
use std::alloc::{AllocError, Global};
use std::env::FillError;
use std::io;
use std::process::ExitCode;
use std::rt::Env;
use text::Out;

// A second after the traces' start, and two.
const SECOND: i64 = 1_714_552_201_000;

const TWO: i64 = 1_714_552_202_000;

// The example traces.
#[derive(Clone, Copy, Debug, PartialEq, Eq)]
enum Example {
    Tail,
    Falling,
    Nested,
    Distant,
    Large,
}

// A letter with which no trace's name begins.
#[derive(Clone, Copy, Debug, PartialEq, Eq)]
struct NoSuchTrace;

impl TryFrom<u8> for Example {
    type Error = NoSuchTrace;

    // A trace by the first letter of its name.
    fn try_from(letter: u8) -> Result<Example, NoSuchTrace> {
        match letter {
            b't' => Ok(Example::Tail),
            b'f' => Ok(Example::Falling),
            b'n' => Ok(Example::Nested),
            b'd' => Ok(Example::Distant),
            b'l' => Ok(Example::Large),
            _ => Err(NoSuchTrace),
        }
    }
}

impl Example {
    fn name(self) -> &'static str {
        match self {
            Example::Tail => "tail",
            Example::Falling => "falling",
            Example::Nested => "nested",
            Example::Distant => "distant",
            Example::Large => "large",
        }
    }

    // The time that is sought in it.
    fn target(self) -> i64 {
        match self {
            Example::Large => TWO,
            _ => SECOND,
        }
    }

    fn put(self, out: &mut Out)
        ensures { Puts (bytes_of self) out.old out.new }
    {
        match self {
            Example::Tail => traces::put_tail(out),
            Example::Falling => traces::put_falling(out),
            Example::Nested => traces::put_nested(out),
            Example::Distant => traces::put_distant(out),
            Example::Large => traces::put_large(out),
        }
    }

    // Makes it at the start of a lent room, and says how long it is.
    fn make(self, room: &mut [u8]) -> usize
        ensures put { Put (bytes_of self) room.old 0 room.new result }
        ensures inside { result ≤ length room.new }
    {
        let mut out = Out { bytes: room, at: 0 };
        self.put(&mut out);
        out.at
    }
}

// The longest trace fits.
fn room(alloc: Global) -> Result<Vec<u8>, AllocError>
    ensures { IfOk result (λ bytes. vec_len bytes ≡ 3147818) }
{
    vec![in alloc; 0; 3147818]
}

// What the stepped seek finds, driven to its end: these traces take few steps. None where it is refused, or takes more.
fn stepped(trace: Trace, target: i64) -> Option<Option<usize>> {
    let mut state = seek::seek_start(trace).ok()?;
    for _ in 0..40 {
        match seek::seek_step(trace, target, state).ok()? {
            SeekStep::More { state: next } | SeekStep::Scan { state: next } => state = next,
            SeekStep::Done { found } => return Some(found),
        }
    }
    None
}

fn put_found(rt: &impl Print, seek: &str, found: Option<usize>) -> io::Result<()> {
    match found {
        Some(offset) => print!(rt; " {seek} {offset}"),
        None => print!(rt; " {seek} none"),
    }
}

// One line: the trace's name, and what each seek finds.
fn answers(
    rt: &impl Print,
    kinds: &[u8; 256],
    room: &mut [u8],
    example: Example,
) -> io::Result<()> {
    let size = example.make(room);
    let target = example.target();
    let trace = Trace {
        kinds,
        bytes: &room[..size],
    };
    print!(rt; "{}:", example.name())?;
    put_found(
        rt,
        "plain",
        plain::plain_seek(trace, target).unwrap_or(None),
    )?;
    put_found(
        rt,
        "whole",
        seek::seek_time(trace, target)
            .ok()
            .and_then(|whole| whole.offset),
    )?;
    if let Some(found) = stepped(trace, target) {
        put_found(rt, "stepped", found)?;
    }
    println!(rt)
}

fn all(rt: &impl Print, room: &mut [u8]) -> io::Result<()> {
    let mut kinds = [0u8; 256];
    kinds[0xFE] = 3;
    for example in [
        Example::Tail,
        Example::Falling,
        Example::Nested,
        Example::Distant,
        Example::Large,
    ] {
        answers(rt, &kinds, room, example)?;
    }
    Ok(())
}

// The trace that the first argument asks for, if there is one.
fn asked(rt: &impl Env) -> Result<Option<Example>, NoSuchTrace> {
    let mut word = [0u8; 16];
    match rt.arg(1, &mut word) {
        Ok(1) => Example::try_from(word[0]).map(Some),
        Err(FillError::NotPresent) => Ok(None),
        _ => Err(NoSuchTrace),
    }
}

fn run(rt: &(impl Print + Eprint + Env + AllocGlobal)) -> io::Result<()> {
    let mut room = room(rt.alloc())?;
    match asked(rt) {
        Ok(None) => all(rt, &mut room),
        Ok(Some(example)) => {
            let size = example.make(&mut room);
            rt.write_all(&room[..size])
        }
        Err(NoSuchTrace) => rt.eprintln(
            "premises: which trace? t (tail), f (falling), n (nested), d (distant) or l (large)",
        ),
    }
}

fn main(rt: HostRuntime) -> io::Result<ExitCode> {
    streams::ended(run(&rt))
}
