// The kind table: that of docs/src, or one from a file of 256 bytes.
use crate::refuse::Refused;
use crate::{args, facts, files, refuse};
use layout::{OTHER, PTI, PTI_DIAGNOSTIC, ZNIFFER};

// The table of docs/src: an end byte is 0xFE less the number of its `ApiType`.
fn usual() -> [u8; 256] {
    let mut table = [0u8; 256];
    table[0xFE] = ZNIFFER;
    table[0xFD] = OTHER;
    table[0xFC] = OTHER;
    table[0xFB] = OTHER;
    table[0xF8] = OTHER;
    table[0xF7] = OTHER;
    table[0xF6] = OTHER;
    table[0xF5] = PTI;
    table[0xF4] = PTI_DIAGNOSTIC;
    table[0xF3] = OTHER;
    table
}

// Reads a table of exactly 256 bytes.
fn read(rt: &HostRuntime, path: &[u8]) -> Result<[u8; 256], Refused> {
    let mut given = files::open(rt, path)?;
    let mut table = [0u8; 256];
    let n = streams::read_full(&mut given, &mut table);
    let mut more = [0u8; 1];
    let extra = streams::read_full(&mut given, &mut more);
    if n != 256 || extra != 0 {
        return Err(refuse::file(
            rt,
            path,
            b": a kind table is a file of exactly 256 bytes that can be read\n",
            facts::NONE,
        ));
    }
    Ok(table)
}

// The table of the file that the argument at a place names, or the usual one.
pub fn kinds_at(rt: &HostRuntime, place: Option<usize>) -> Result<[u8; 256], Refused> {
    if place.is_none() {
        return Ok(usual());
    }
    let mut room = io::buffer();
    let path = args::argument(rt, place, &mut room);
    read(rt, path)
}
