// The figures of document 01 that are run. Standard input (the file `stdin`, which says how it is read) names each figure, says what it is run on
// and which function is asked; the answer is printed after the name, a line for each figure, held to the file `stdout`. Those that 01 marks P
// are proved, in the crate `marked`.
#![tactic(auto)]

mod bodies; // bracket records, PTI frames, speeds
mod bytes; // the Zniffer's bytes
mod line; // the numbers and bytes of a line
mod made; // what the figures are run on
mod pages; // openings, pages and the seam check
mod say; // what is said in more than one place
mod seeks; // searches, span and seeks
mod sequence; // opening and reading in sequence

ghost use Rattle.std.specs.Prelude.{◌≡◌, length};

use layout::Trace;
use line::Numbers;
use made::Made;
use reader::ZlfReader;
use seek::SeekState;
use std::io;
use std::process::ExitCode;

// Room for a trace that is longer than the first window of a search.
// Kept: a function of its own. Where the array is made in the function that lends it, the check counts its zeros, and runs out of stack.
fn room() -> [u8; 1050688]
    ensures { 1050688 ≡ length result }
{
    [0; 1050688]
}

// What a letter asks of the trace that is made.
// Kept: the letters are the file's own, each matched once; an enum between would list them a second time.
fn ask(rt: &impl Print, letter: u8, trace: Trace, n: Numbers) -> io::Result<()> {
    let s = trace.bytes;
    let b = n.b as usize;
    let c = n.c as usize;
    match letter {
        b'o' => pages::opening(rt, seam::open(s, line::low32(n.c))),
        b'f' => pages::page_of_table(rt, trace, b, c),
        b'R' => pages::first_row(rt, trace, b, c),
        b'u' => pages::seam(rt, seam::seam_check(trace, c)),
        b'r' => say::whether(rt, matches!(record::read_record(trace, c), Ok(Some(_)))),
        b'B' => say::whether(rt, matches!(resync::is_boundary(trace, c), Ok(true))),
        b'n' => seeks::search(rt, resync::next_record_at(trace, b, c)),
        b'd' => seeks::search(rt, resync::next_record_at(trace, c, resync::DEFAULT_WINDOW)),
        b's' => seeks::span(rt, span::time_span(trace)),
        b'k' => seeks::whole(rt, seek::seek_time(trace, line::time(n.c))),
        b'j' => {
            let first = SeekState::Searching { lo: b, hi: c };
            seeks::step(rt, seek::seek_step(trace, line::time(n.a), first))
        }
        b'g' => print!(rt; " {:04X}", checksum::header_sum(s)),
        b'q' => sequence::opening(rt, ZlfReader::new(s, line::low32(n.c))),
        b'e' => {
            let reader = ZlfReader {
                place: b,
                count: n.c,
            };
            sequence::next(rt, reader, reader.next_record(trace))
        }
        b'y' => bytes::given(rt, zniffer_lent::parse_all(s)),
        b'G' => print!(rt; " {}", bytes::taken(s)),
        b'p' => bodies::split(rt, bracket::next_record(s, 0)),
        b'b' => bodies::frame(rt, pti::parse_record(s)),
        b't' => print!(rt; " {}", beam::beam_count(c, s)),
        b'C' => print!(rt; " {}", bodies::pairs(line::low8(n.c))),
        b'c' => print!(rt; " {}", speed::speed_for(line::low8(n.b), line::low8(n.c))),
        b'm' => print!(rt; " {}", ticks::unix_millis(n.c)),
        _ => print!(rt; " ?"),
    }
}

// A line without a name makes something, and one with a name asks of what is made; what begins with # is for the reader.
fn read(rt: &impl Print, line: &[u8], made: &mut Made) -> io::Result<()> {
    let after_colon = line.iter().rposition(|b| *b == b':').map_or(0, |i| i + 1);
    let (name, command) = line.split_at(after_colon);
    let letter = layout::u8_at(command, 1);
    let n = line::read(command);
    match name {
        [] => made.make(letter, command, n),
        [b'#', ..] => {}
        _ => {
            rt.write_all(name)?;
            ask(rt, letter, made.trace(), n)?;
            rt.println("")?;
        }
    }
    Ok(())
}

// Reads the figures, and answers them.
fn answered(rt: &(impl Input + Print)) -> io::Result<()> {
    let mut script = [0u8; 16384];
    let n = streams::read_full(&mut rt.reader(), &mut script);
    let mut room = room();
    let mut made = Made::new(&mut room);
    for line in script[..n].split(|b| *b == b'\n') {
        read(rt, line, &mut made)?;
    }
    Ok(())
}

fn main(rt: HostRuntime) -> io::Result<ExitCode> {
    streams::ended(answered(&rt))
}
