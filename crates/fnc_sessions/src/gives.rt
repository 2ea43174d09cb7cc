// What sources give, poll by poll.

use crate::reader::Pieces;
use crate::shown::shown;
use fnc_journal::NoMemory;
use fnc_outside::{LineBuf, MemorySource, Polled, Source};
use fnc_rows::Row;
use fnc_streams::StreamSource;
use std::alloc::Global;

/// One poll into an emptied buffer, through the bound.
fn next<S: Source>(source: &mut S, line: &mut LineBuf) -> Polled {
    line.clear();
    source.poll(line)
}

/// What one poll answers, with its line.
fn say_poll<S: Source>(
    alloc: Global,
    source: &mut S,
    line: &mut LineBuf,
    said: &mut String,
) -> Result<(), NoMemory> {
    let answer = next(source, line);
    let bytes = shown(alloc, line.bytes())?;
    Ok(said.push_str(format!(in alloc; "{answer:?} {bytes}, ")?.as_str())?)
}

/// What so many polls answer, with the line of each, into a buffer of a size.
fn polls<S: Source>(
    alloc: Global,
    source: &mut S,
    size: u32,
    count: u32,
) -> Result<String, NoMemory> {
    let mut line = LineBuf::with_size(alloc, size)?;
    let mut said = String::new(alloc);
    for _ in 0..count {
        say_poll(alloc, source, &mut line, &mut said)?;
    }
    let size = line.size();
    said.push_str(format!(in alloc; "of {size}")?.as_str())?;
    Ok(said)
}

/// What a source in memory gives, of which some polls fail.
fn in_memory(alloc: Global, row: &Row, failing: &[u32]) -> Result<String, NoMemory> {
    let mut source = MemorySource::new(alloc, row.bytes(4), failing)?;
    polls(alloc, &mut source, row.number32(1), row.number32(2))
}

/// What a source in memory gives.
fn from_text(alloc: Global, row: &Row) -> Result<String, NoMemory> {
    let failing = row.numbers(alloc, 3)?;
    in_memory(alloc, row, failing.as_slice())
}

/// What a source over pieces gives.
fn from_pieces(alloc: Global, row: &Row) -> Result<String, NoMemory> {
    let mut source = StreamSource::new(alloc, Pieces { row, at: 3 })?;
    polls(alloc, &mut source, row.number32(1), row.number32(2))
}

/// What is said of a row: `source|SIZE|POLLS|FAILING POLLS|TEXT` or `reader|SIZE|POLLS|PIECE|..`.
pub(crate) fn say(alloc: Global, row: &Row) -> Result<String, NoMemory> {
    match row.text(0) {
        "source" => from_text(alloc, row),
        _ => from_pieces(alloc, row),
    }
}
