// Standard output, gathered in a lent buffer that is written whenever little is left of it.
use crate::facts::Facts;
use crate::{facts, refuse};
use std::io::{Error, ErrorKind, Result};
use text::Out;

// The room that a line takes at most.
const LINE: usize = 4096;

// The place where the next line goes once nobody reads: past every buffer's end, where what is put is dropped.
// Kept: a number, and no enum: `Out` takes a place, and drops what is put at this one by the test that it has anyway.
const UNREAD: usize = usize::MAX;

// The first n bytes, or all where there are fewer.
pub fn first(s: &[u8], n: usize) -> &[u8] {
    s.get(..n).unwrap_or(s)
}

// Whether a write failed because nobody reads any more.
fn is_closed(e: &Error) -> bool {
    e.kind() == ErrorKind::BrokenPipe
}

// Writes a text, and answers the status; where it cannot be written it says so, but for a closed pipe.
pub fn finish(rt: &HostRuntime, text: &[u8], status: u8) -> u8 {
    match rt.write_all(text) {
        Ok(()) => status,
        Err(e) if is_closed(&e) => streams::CLOSED,
        Err(e) => {
            refuse::system(rt, b"standard output", e);
            2
        }
    }
}

// The lines of an answer, for a script or for a person.
#[derive(Drop)]
pub struct Lines<'r, 'b> {
    pub rt: &'r HostRuntime,
    pub out: Out<'b>,
    pub plain: bool,
}

impl Lines<'_, '_> {
    // What has been put and is not written yet.
    fn put_so_far(&self) -> &[u8] {
        first(self.out.bytes, self.out.at)
    }

    // A text with its facts: one for a script, or one for a person.
    pub fn put(&mut self, script: &[u8], person: &[u8], f: Facts) {
        let text = if self.plain { script } else { person };
        facts::put_line(&mut self.out, text, f);
    }

    // A text for a person, and nothing for a script.
    pub fn put_heading(&mut self, text: &[u8]) {
        if !self.plain {
            self.out.put_text(text);
        }
    }

    // Makes room for a line: where little is left of the buffer it is written. After a write that failed it stays full, so that the
    // last write fails too and is told.
    pub fn spill(&mut self) {
        if self.out.at <= self.out.bytes.len().saturating_sub(LINE) {
            return;
        }
        match self.rt.write_all(self.put_so_far()) {
            Ok(()) => self.out.at = 0,
            Err(e) if is_closed(&e) => self.out.at = UNREAD,
            Err(_) => {}
        }
    }

    // Whether nobody reads any more, so that no line is wanted.
    pub fn is_unread(&self) -> bool {
        self.out.at == UNREAD
    }

    // Writes what is left, and answers the status.
    pub fn finish(&self, status: u8) -> u8 {
        finish(self.rt, self.put_so_far(), status)
    }
}
