// Whole sessions: on a text in memory, with polls and writes that fail, and on pieces that are read one after another,
// with flushes that fail.

use crate::reader::Pieces;
use crate::shown::shown;
use fnc_journal::NoMemory;
use fnc_journal::limits::LEAST_JOURNAL;
use fnc_journal_text::Form;
use fnc_outside::{MemorySink, MemorySource, Sink, Source};
use fnc_replay::{Replayed, replay};
use fnc_rows::Row;
use fnc_streams::StreamSource;
use std::alloc::Global;

/// A session of answers on a source and a sink. The long contract of `replay` is met here alone, where the source and
/// the sink are of any type.
pub(crate) fn run<S: Source + Drop, K: Sink + Drop>(
    alloc: Global,
    source: S,
    sink: K,
    allowed: u32,
) -> Replayed<S, K> {
    let allowed = u64::from(allowed);
    replay(alloc, source, sink, LEAST_JOURNAL, Form::Answers, allowed)
}

/// What is said of a row: `replay|ALLOWED POLLS|FAILING POLLS|FAILING WRITES|TEXT`, or
/// `stream|ALLOWED POLLS|FAILING FLUSHES|PIECE|..`.
pub(crate) fn say(alloc: Global, row: &Row) -> Result<String, NoMemory> {
    match row.text(0) {
        "replay" => on_text(alloc, row),
        _ => on_pieces(alloc, row),
    }
}

/// How a session ended, after how many polls, whether there is a journal, and what was written.
fn told(alloc: Global, replayed: &Replayed<MemorySource, MemorySink>) -> Result<String, NoMemory> {
    let (outcome, polls) = (replayed.outcome, replayed.polls);
    let has_journal = replayed.journal.is_some();
    let output = shown(alloc, replayed.sink.bytes())?;
    Ok(format!(in alloc; "{outcome:?} {polls} {has_journal} {output}")?)
}

/// What is said of a session on this source, of which some writes fail.
fn from_source(
    alloc: Global,
    row: &Row,
    source: MemorySource,
    failing_writes: &[u32],
) -> Result<String, NoMemory> {
    let sink = MemorySink::new(alloc, 1_024, failing_writes)?;
    told(alloc, &run(alloc, source, sink, row.number32(1)))
}

/// What is said of a session on a text, of which some polls and some writes fail.
fn on_failing(
    alloc: Global,
    row: &Row,
    failing_polls: &[u32],
    failing_writes: &[u32],
) -> Result<String, NoMemory> {
    let source = MemorySource::new(alloc, row.bytes(4), failing_polls)?;
    from_source(alloc, row, source, failing_writes)
}

/// What is said of a session on a text.
fn on_text(alloc: Global, row: &Row) -> Result<String, NoMemory> {
    let failing_polls = row.numbers(alloc, 2)?;
    let failing_writes = row.numbers(alloc, 3)?;
    on_failing(
        alloc,
        row,
        failing_polls.as_slice(),
        failing_writes.as_slice(),
    )
}

/// How a session ended, after how many polls, what the sink holds, and what of it was sent on.
fn told_of_sent<S: Source + Drop>(
    alloc: Global,
    replayed: &Replayed<S, MemorySink>,
) -> Result<String, NoMemory> {
    let (outcome, polls) = (replayed.outcome, replayed.polls);
    let held = shown(alloc, replayed.sink.bytes())?;
    let sent = shown(alloc, replayed.sink.sent())?;
    Ok(format!(in alloc; "{outcome:?} {polls} held {held} sent {sent}")?)
}

/// What is said of a session on this source, with a sink of which some flushes fail.
fn from_pieces<S: Source + Drop>(alloc: Global, row: &Row, source: S) -> Result<String, NoMemory> {
    let failing = row.numbers(alloc, 2)?;
    let sink = MemorySink::with_failing_flushes(alloc, 1_024, failing.as_slice())?;
    told_of_sent(alloc, &run(alloc, source, sink, row.number32(1)))
}

/// What is said of a session on pieces.
fn on_pieces(alloc: Global, row: &Row) -> Result<String, NoMemory> {
    from_pieces(alloc, row, StreamSource::new(alloc, Pieces { row, at: 3 })?)
}
