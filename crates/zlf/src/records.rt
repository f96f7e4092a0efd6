// The sequential reader's view: records as they are stored.
use crate::answer::Query;
use crate::facts::Facts;
use crate::out::Lines;
use crate::refuse;
use crate::refuse::Refused;
use layout::Trace;
use reader::{ZlfReader, ZlfRecord};

// The line of a record.
fn put_record(lines: &mut Lines, record: ZlfRecord) {
    lines.spill();
    if lines.plain {
        fields::record_fields(&mut lines.out, record);
    } else {
        show::record_line(&mut lines.out, record);
    }
}

// So many records from a place on. It says why there is no record more; a plain end is good.
fn read(query: Query, trace: Trace, lines: &mut Lines) -> u8 {
    let mut reader = ZlfReader {
        place: query.ask.place,
        count: 0,
    };
    for _ in 0..query.ask.count {
        match reader.next_record(trace) {
            Ok(Some(next)) => {
                put_record(lines, next.record);
                reader = next.reader;
            }
            Ok(None) => break,
            Err(e) => {
                let f = Facts::of(reader.place as u64, 0, 0);
                refuse::refusal(query.rt, query.path, e, f);
                return lines.finish(2);
            }
        }
    }
    lines.finish(0)
}

// The records of a trace that opens in sequence.
pub fn records(query: Query, trace: Trace, lines: &mut Lines) -> Result<u8, Refused> {
    if let Err(e) = ZlfReader::new(trace.bytes, query.ask.version) {
        return Err(refuse::opening(query.rt, query.path, e, trace.bytes));
    }
    lines.put_heading(
        b"     place time (UTC)               way ses EB kind              payload     length\n",
    );
    Ok(read(query, trace, lines))
}
