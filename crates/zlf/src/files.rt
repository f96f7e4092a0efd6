// The trace's file, read whole into a room of the smallest size class that holds it.
ghost use Rattle.std.specs.Prelude.{◌≤◌};

use crate::answer::Query;
use crate::asked::Ask;
use crate::refuse::Refused;
use crate::{answer, facts, kinds, refuse};
use layout::{TRACE_LIMIT, Trace, TraceTooLong};
use std::fs;
use std::fs::File;
use std::io::{ErrorKind, Read, Seek, SeekFrom};
use std::os::unix::fs::FileExt;

// The size classes: of at most 1 MiB, 32 MiB, 256 MiB, and 1 GiB, the longest trace that is read.
const CLASSES: [usize; 4] = [1_048_576, 33_554_432, 268_435_456, TRACE_LIMIT];

// How often a file is read that is cut while it is read.
const TRIES: u8 = 4;

// The answer of what a file's bytes are asked. None: it ended early, since it was cut while it was read.
fn read_into<'a>(
    query: Query<'a>,
    file: &mut File,
    room: &'a mut [u8],
) -> Result<Option<u8>, Refused> {
    let first = match file.read(room) {
        Ok(got) => got,
        Err(e) => return Err(refuse::system(query.rt, query.path, e)),
    };
    let rest = streams::read_full(file, &mut room[first..]);
    if rest != room.len() - first {
        return Ok(None);
    }
    let trace = Trace {
        kinds: query.kinds,
        bytes: room,
    };
    let status = answer::answer(query, trace)?;
    Ok(Some(status))
}

// The same of a file of a size, in a room of a class.
fn in_room(query: Query, file: &mut File, size: usize, class: usize) -> Result<Option<u8>, Refused>
    requires { size ≤ class }
{
    match vec![in query.rt.alloc(); 0u8; class] {
        Ok(mut room) => read_into(query, file, &mut room[..size]),
        Err(e) => Err(refuse::system(query.rt, query.path, e.into())),
    }
}

// The same of a file of a size, in the smallest class that holds it.
fn sized(query: Query, file: &mut File, size: usize) -> Result<Option<u8>, Refused> {
    for class in CLASSES {
        if size <= class {
            return in_room(query, file, size, class);
        }
    }
    Err(refuse::refusal(query.rt, query.path, TraceTooLong, facts::NONE))
}

// The size of a file that can be read from its start, which is then where the next read begins.
fn size_of(file: &mut File) -> usize {
    let size = file.seek(SeekFrom::End(0)).unwrap_or(0);
    let _ = file.seek(SeekFrom::Start(0));
    size as usize
}

// Whether a file can be read from its start. A pipe has no start.
fn readable(rt: &HostRuntime, file: &File, path: &[u8]) -> Result<(), Refused> {
    let mut one = [0u8; 1];
    match file.read_at(&mut one, 0) {
        Ok(_) => Ok(()),
        Err(e) if e.kind() == ErrorKind::NotSeekable => Err(refuse::file(
            rt,
            path,
            b": a pipe has no size: write it to a file first\n",
            facts::NONE,
        )),
        Err(e) => Err(refuse::system(rt, path, e)),
    }
}

// The answer of a file that is open. One that was cut while it was read is measured and read again.
fn measured(query: Query, file: &mut File) -> Result<u8, Refused> {
    readable(query.rt, file, query.path)?;
    for _ in 0..TRIES {
        let size = size_of(file);
        if let Some(status) = sized(query, file, size)? {
            return Ok(status);
        }
    }
    Err(refuse::file(
        query.rt,
        query.path,
        b": it changes while it is read\n",
        facts::NONE,
    ))
}

// Opens a file to read it. std opens no name that is no text.
pub fn open(rt: &HostRuntime, path: &[u8]) -> Result<File, Refused> {
    let Ok(name) = str::from_utf8(path) else {
        return Err(refuse::file(
            rt,
            path,
            b": a file whose name is not UTF-8 cannot be opened: give it another\n",
            facts::NONE,
        ));
    };
    match fs::open(rt, name) {
        Ok(file) => Ok(file),
        Err(e) => Err(refuse::system(rt, path, e)),
    }
}

// Opens the file, and asks it by the kind table of the argument at a place.
pub fn opened<'a>(
    rt: &'a HostRuntime,
    path: &'a [u8],
    table: Option<usize>,
    ask: Ask,
) -> Result<u8, Refused> {
    let kinds = kinds::kinds_at(rt, table)?;
    let mut file = open(rt, path)?;
    let query = Query {
        rt,
        path,
        kinds: &kinds,
        ask,
    };
    measured(query, &mut file)
}
