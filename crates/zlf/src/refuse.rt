// Refusals and bad calls: one plain line on standard error.
ghost use Rattle.std.specs.Prelude.{◌≡◌};
ghost use Rattle.zlf.specs.Refusals.{refusal_text, opening_facts};

use crate::facts::Facts;
use crate::{facts, out};
use layout::Refusal;
use std::io::{Cursor, Error, Write};
use text::Out;

// A refusal or a bad call, which has been told: the program ends with 2. The field is private, so that only this module makes one.
#[derive(Clone, Copy, Debug, PartialEq, Eq)]
pub struct Refused(());

// Writes a line.
fn told(rt: &HostRuntime, line: &Out) -> Refused {
    let _ = rt.stderr().write_all(out::first(line.bytes, line.at));
    Refused(())
}

// A line: a text, a name, and a text with its facts.
fn said(rt: &HostRuntime, before: &[u8], name: &[u8], text: &[u8], f: Facts) -> Refused {
    let mut bytes = [0u8; 8192];
    let mut line = Out {
        bytes: &mut bytes,
        at: 0,
    };
    line.put_text(before);
    line.put_text(name);
    facts::put_line(&mut line, text, f);
    told(rt, &line)
}

// A line on a file.
pub fn file(rt: &HostRuntime, path: &[u8], text: &[u8], f: Facts) -> Refused {
    said(rt, b"zlf: ", path, text, f)
}

// A line on a word of the call.
pub fn word(rt: &HostRuntime, word: &[u8], text: &[u8], f: Facts) -> Refused {
    said(rt, b"zlf: '", word, text, f)
}

// A line on the call.
pub fn call(rt: &HostRuntime, text: &[u8]) -> Refused {
    said(rt, b"zlf: ", b"", text, facts::NONE)
}

// The refusal of a trace of another version.
const OTHER_VERSION: u32 = 4;

// 01's refusals by their numbers, 1 to 10.
#[tactic(auto, unfolding(crate::specs::Refusals::refusal_text))]
fn text_of(number: u32) -> &'static [u8]
    ensures { result.now ≡ refusal_text number }
{
    match number {
        1 =>
            b": refusal 1: the file has more than 1073741824 bytes, the longest trace that is read\n",
        2 => b": refusal 2: a trace has a header of 2048 bytes, and this file has % bytes\n",
        3 => b": refusal 3: the header sum is wrong (zlf info FILE shows it)\n",
        4 => b": refusal 4: the trace has version %, which is not the one expected (--version N)\n",
        5 => b": refusal 5: the place % is too large\n",
        6 => b": refusal 6: the place % is not from 2048 to the trace's length, %\n",
        7 => b": refusal 7: the page has more than 600 frames: ask for fewer with --count\n",
        8 => b": refusal 8: the record at % has a negative length\n",
        9 => b": refusal 9: the trace ends in the properties or the length of the record at %\n",
        10 =>
            b": refusal 10: the trace ends in the payload or before the end byte of the record at %\n",
        _ => b"\n",
    }
}

// What is said of a refusal: a text, and its facts.
#[derive(Clone, Copy)]
struct Reason {
    text: &'static [u8],
    facts: Facts,
}

impl Reason {
    // What is said of one of 01's refusals.
    fn of<E: Refusal>(error: E, f: Facts) -> Reason
        ensures text { result.text.now ≡ refusal_text (E.number error) }
        ensures facts { result.facts ≡ f }
    {
        Reason {
            text: text_of(error.number()),
            facts: f,
        }
    }

    // What is said of a trace that does not open: its version, where that is another one, or else its size.
    fn of_opening<E: Refusal>(error: E, s: &[u8]) -> Reason
        ensures text { result.text.now ≡ refusal_text (E.number error) }
        ensures facts { result.facts ≡ opening_facts (E.number error) s.now }
    {
        let number = error.number();
        let fact = if number == OTHER_VERSION {
            u64::from(layout::u32_at(s, 0))
        } else {
            s.len() as u64
        };
        Reason {
            text: text_of(number),
            facts: Facts::of(fact, 0, 0),
        }
    }
}

// One of 01's refusals.
pub fn refusal(rt: &HostRuntime, path: &[u8], error: impl Refusal, f: Facts) -> Refused {
    let reason = Reason::of(error, f);
    file(rt, path, reason.text, reason.facts)
}

// A trace does not open.
pub fn opening(rt: &HostRuntime, path: &[u8], error: impl Refusal, s: &[u8]) -> Refused {
    let reason = Reason::of_opening(error, s);
    file(rt, path, reason.text, reason.facts)
}

// The words of an error, without the number that std puts after the system's.
fn put_words(out: &mut Out, e: Error) {
    let mut words = Cursor::new([0u8; 256]);
    let _ = write!(words, "{e}");
    let n = words.position() as usize;
    let all = words.into_inner();
    let text = str::from_utf8(out::first(&all, n)).unwrap_or("");
    let said = text
        .split_once(" (os error ")
        .map_or(text, |(said, _)| said);
    out.put_text(said.as_bytes());
}

// The system's own words on a file, as `No such file or directory`.
pub fn system(rt: &HostRuntime, path: &[u8], e: Error) -> Refused {
    let mut bytes = [0u8; 8192];
    let mut line = Out {
        bytes: &mut bytes,
        at: 0,
    };
    line.put_text(b"zlf: ");
    line.put_text(path);
    line.put_text(b": ");
    put_words(&mut line, e);
    line.put_byte(b'\n');
    told(rt, &line)
}
