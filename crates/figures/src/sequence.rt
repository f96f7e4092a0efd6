// Opening in sequence, and reading in sequence.
use crate::say;
use reader::{Next, OpenError, Opened, ReadError, ZlfReader, ZlfRecord};
use std::io;

// A reader's place and count.
fn reader_fields(rt: &impl Print, reader: ZlfReader) -> io::Result<()> {
    print!(rt; " {} {}", reader.place, reader.count)
}

pub fn opening(rt: &impl Print, answer: Result<Opened, OpenError>) -> io::Result<()> {
    match answer {
        Ok(Opened { version, reader }) => {
            print!(rt; " V {version}")?;
            reader_fields(rt, reader)
        }
        Err(e) => {
            say::refused(rt, e)?;
            if let OpenError::InvalidZlfVersion { version } = e {
                print!(rt; " {version}")?;
            }
            Ok(())
        }
    }
}

// A record: place, stored ticks, bit 7, session, end byte, kind, payload place and length.
fn record(rt: &impl Print, r: ZlfRecord) -> io::Result<()> {
    print!(rt; " {} {}", r.offset, r.raw_ticks)?;
    say::whether(rt, r.is_outcome)?;
    print!(rt;
        " {} {} {} {} {}",
        r.session_id, r.end, r.kind, r.payload_offset, r.payload_len
    )
}

// The answer that a reader gave, then the reader's place and count.
pub fn next(
    rt: &impl Print,
    given: ZlfReader,
    answer: Result<Option<Next>, ReadError>,
) -> io::Result<()> {
    match answer {
        Ok(Some(Next { record: r, reader })) => {
            record(rt, r)?;
            return reader_fields(rt, reader);
        }
        Ok(None) => print!(rt; " none")?,
        Err(e) => {
            say::refused(rt, e)?;
            if let ReadError::InvalidPayloadLength { length } = e {
                print!(rt; " {length}")?;
            }
        }
    }
    reader_fields(rt, given)
}
