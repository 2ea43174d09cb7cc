// Texts of journals that are judged or searched for answers, on polls, writes and flushes that fail.

use crate::shown::shown;
use fnc_audit::{Audited, audit, history};
use fnc_journal::NoMemory;
use fnc_journal::limits::LEAST_JOURNAL;
use fnc_outside::{MemorySink, MemorySource};
use fnc_rows::Row;
use std::alloc::Global;

/// The bytes that the sink may hold.
const ROOM: u32 = 1_024;

/// How a call ended, and what it wrote.
fn told(alloc: Global, audited: &Audited<MemorySource, MemorySink>) -> Result<String, NoMemory> {
    let outcome = audited.outcome;
    let output = shown(alloc, audited.sink.bytes())?;
    Ok(format!(in alloc; "{outcome:?} {output}")?)
}

/// The text of a journal of so many entries `0 pass`, and a last line.
fn passes(alloc: Global, count: u32, last: &[u8]) -> Result<Vec<u8>, NoMemory> {
    let mut text = Vec::from_slice(alloc, b"fencer-journal 3\n")?;
    for _pass in 0..count {
        text.extend_from_slice(b"0 pass\n")?;
    }
    text.extend_from_slice(last)?;
    Ok(text)
}

/// How the audit of a text ended, and what it wrote.
fn judged(alloc: Global, text: &[u8]) -> Result<String, NoMemory> {
    let source = MemorySource::new(alloc, text, &[])?;
    let sink = MemorySink::new(alloc, ROOM, &[])?;
    told(alloc, &audit(alloc, source, sink, LEAST_JOURNAL, 100_000))
}

/// What is said of a text of many entries.
fn on_passes(alloc: Global, row: &Row) -> Result<String, NoMemory> {
    let text = passes(alloc, row.number32(1), row.bytes(2))?;
    judged(alloc, text.as_slice())
}

/// What the command of a row comes to on this source and this sink.
fn run(
    alloc: Global,
    row: &Row,
    source: MemorySource,
    sink: MemorySink,
) -> Audited<MemorySource, MemorySink> {
    let allowed = u64::from(row.number32(1));
    match row.text(0) {
        "audit" => audit(alloc, source, sink, LEAST_JOURNAL, allowed),
        _ => history(alloc, source, sink, row.text(5), LEAST_JOURNAL, allowed),
    }
}

/// What is said of a text, on polls and writes that fail.
fn on_failing(
    alloc: Global,
    row: &Row,
    failing_polls: &[u32],
    failing_writes: &[u32],
) -> Result<String, NoMemory> {
    let source = MemorySource::new(alloc, row.bytes(4), failing_polls)?;
    let sink = MemorySink::new(alloc, ROOM, failing_writes)?;
    told(alloc, &run(alloc, row, source, sink))
}

/// What is said of a text.
fn on_text(alloc: Global, row: &Row) -> Result<String, NoMemory> {
    let failing_polls = row.numbers(alloc, 2)?;
    let failing_writes = row.numbers(alloc, 3)?;
    on_failing(
        alloc,
        row,
        failing_polls.as_slice(),
        failing_writes.as_slice(),
    )
}

/// What is said of a row: `audit|ALLOWED POLLS|FAILING POLLS|FAILING WRITES|TEXT`,
/// `history|ALLOWED POLLS|FAILING POLLS|FAILING WRITES|TEXT|NODE`, or `passes|ENTRIES|LAST LINE`.
pub(crate) fn say(alloc: Global, row: &Row) -> Result<String, NoMemory> {
    match row.text(0) {
        "passes" => on_passes(alloc, row),
        _ => on_text(alloc, row),
    }
}
