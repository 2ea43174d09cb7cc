// What sinks hold, call by call.

use crate::shown::shown;
use crate::writer::Slow;
use fnc_journal::NoMemory;
use fnc_outside::{MemorySink, Sink, Torn};
use fnc_rows::Row;
use fnc_streams::StreamSink;
use std::alloc::Global;

/// Whether one call works, through the bound: `!flush`, or the write of a piece.
fn works<K: Sink>(sink: &mut K, call: &[u8]) -> bool {
    if call == b"!flush".as_slice() {
        return sink.flush().is_ok();
    }
    sink.write(call).is_ok()
}

/// What a sink in memory answers to one call, what it then holds, and what of it was sent on.
fn say_call(
    alloc: Global,
    sink: &mut MemorySink,
    call: &[u8],
    said: &mut String,
) -> Result<(), NoMemory> {
    let works = works(sink, call);
    let held = shown(alloc, sink.bytes())?;
    let sent = shown(alloc, sink.sent())?;
    Ok(said.push_str(format!(in alloc; "{works} held {held} sent {sent}, ")?.as_str())?)
}

/// What a sink in memory answers to the calls of a row, what it holds after each, and what of it was sent on.
fn held(alloc: Global, sink: &mut MemorySink, row: &Row) -> Result<String, NoMemory> {
    let mut said = String::new(alloc);
    for place in 3..row.len() {
        say_call(alloc, sink, row.bytes(place), &mut said)?;
    }
    Ok(said)
}

/// The writes of a row that fail, each with what is kept of it, as `0:1,2:3` says.
fn torn(alloc: Global, row: &Row) -> Result<Vec<Torn>, NoMemory> {
    let mut torn = Vec::new(alloc);
    for part in row.text(2).split(',') {
        let (write, kept) = part.split_once(':').unwrap_or(("", ""));
        torn.push(Torn {
            write: write.parse::<u32>().unwrap_or(0),
            kept: kept.parse::<u32>().unwrap_or(0),
        })?;
    }
    Ok(torn)
}

/// What a sink over a writer answers to the calls of a row.
fn answers<K: Sink>(alloc: Global, sink: &mut K, row: &Row) -> Result<String, NoMemory> {
    let mut said = String::new(alloc);
    for place in 2..row.len() {
        let works = works(sink, row.bytes(place));
        said.push_str(format!(in alloc; "{works} ")?.as_str())?;
    }
    Ok(said)
}

/// What a sink over a writer answers, which the writer holds then.
fn say_written(alloc: Global, row: &Row, held: &mut Vec<u8>) -> Result<String, NoMemory> {
    let writer = Slow {
        held,
        failing: row.number(1),
        writes: 0,
    };
    let mut sink = StreamSink::new(alloc, writer)?;
    answers(alloc, &mut sink, row)
}

/// What a sink over a writer answers, and what the writer then holds.
fn written(alloc: Global, row: &Row) -> Result<String, NoMemory> {
    let mut held = Vec::new(alloc);
    let said = say_written(alloc, row, &mut held)?;
    let held = shown(alloc, held.as_slice())?;
    Ok(format!(in alloc; "{said}held {held}")?)
}

/// What a sink of which some writes fail answers.
fn failing(alloc: Global, row: &Row) -> Result<String, NoMemory> {
    let failing = row.numbers(alloc, 2)?;
    let mut sink = MemorySink::new(alloc, row.number32(1), failing.as_slice())?;
    held(alloc, &mut sink, row)
}

/// What a sink of which some writes are torn answers.
fn tearing(alloc: Global, row: &Row) -> Result<String, NoMemory> {
    let torn = torn(alloc, row)?;
    let mut sink = MemorySink::torn(alloc, row.number32(1), torn.as_slice())?;
    held(alloc, &mut sink, row)
}

/// What a sink of which some flushes fail answers.
fn failing_to_flush(alloc: Global, row: &Row) -> Result<String, NoMemory> {
    let failing = row.numbers(alloc, 2)?;
    let size = row.number32(1);
    let mut sink = MemorySink::with_failing_flushes(alloc, size, failing.as_slice())?;
    held(alloc, &mut sink, row)
}

/// What is said of a row: `sink|ROOM|FAILING WRITES|CALL|..`, `torn sink|ROOM|TORN WRITES|CALL|..`,
/// `failing flushes|ROOM|FAILING FLUSHES|CALL|..` or `writer|FAILING WRITE|CALL|..`.
pub(crate) fn say(alloc: Global, row: &Row) -> Result<String, NoMemory> {
    match row.text(0) {
        "sink" => failing(alloc, row),
        "torn sink" => tearing(alloc, row),
        "failing flushes" => failing_to_flush(alloc, row),
        _ => written(alloc, row),
    }
}
