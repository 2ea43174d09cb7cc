// The two calls: each reads a journal's text, and writes what is said of the journal.

ghost use Rattle.std.specs.Prelude.{◌≡◌, ◌≤◌, ◌<◌, ◌^◌, []};
ghost use Rattle.fnc_journal.specs.declared.limits.TheConstants.{LONGEST_JOURNAL_LINE};
ghost use Rattle.fnc_told.specs.SourceAndSink.{change, sink_told, source_told};
ghost use Rattle.fnc_audit.specs.declared.text.Awaited.{Awaited};
ghost use Rattle.fnc_audit.specs.Audits.{Audits, IsComplete};
ghost use Rattle.fnc_audit.specs.Said as Said;

use crate::question::Question;
use crate::reading::read_text;
use crate::saying::finish;
use crate::text::Text;
use fnc_journal::Outcome;
use fnc_journal::limits::{GREATEST_JOURNAL, LEAST_JOURNAL, LONGEST_JOURNAL_LINE};
use fnc_outside::{LineBuf, Sink, Source};
use std::alloc::Global;

/// How a call ended: its outcome, and the source and the sink.
#[derive(Drop)]
pub struct Audited<S: Drop, K: Drop> {
    pub outcome: Outcome,
    pub source: S,
    pub sink: K,
}

/// Reads the text of a source, and writes what is said to a question.
fn answer_by<S: Source, K: Sink>(
    alloc: Global,
    source: &mut S,
    sink: &mut K,
    question: Question<'_>,
    text: &mut Text,
    line: &mut LineBuf,
    polls: u64,
) -> Outcome
    requires holds_none { line.old.bytes ≡ [] }
    requires longest { line.old.size ≡ LONGEST_JOURNAL_LINE }
    requires at_first { text.old.awaited ≡ Awaited.Head }
    ensures audits { let of_source = source_told S.given S.left S.faults in
        let of_sink = sink_told K.held K.unsent K.faults in
        Audits (Said.said question.entry) result (record {
          source = change (of_source source.old) (of_source source.new);
          sink = change (of_sink sink.old) (of_sink sink.new);
          limit = text.old.limit;
          polls = polls;
        }) }
{
    match read_text(alloc, source, text, line, polls) {
        Some(outcome) => outcome,
        None => finish(text, question, sink),
    }
}

/// Takes the memory for a line, and answers a question by a text of which no line came yet.
fn answer_with<S: Source, K: Sink>(
    alloc: Global,
    source: &mut S,
    sink: &mut K,
    question: Question<'_>,
    text: &mut Text,
    polls: u64,
) -> Outcome
    requires at_first { text.old.awaited ≡ Awaited.Head }
    ensures audits { let of_source = source_told S.given S.left S.faults in
        let of_sink = sink_told K.held K.unsent K.faults in
        Audits (Said.said question.entry) result (record {
          source = change (of_source source.old) (of_source source.new);
          sink = change (of_sink sink.old) (of_sink sink.new);
          limit = text.old.limit;
          polls = polls;
        }) }
{
    match LineBuf::with_size(alloc, LONGEST_JOURNAL_LINE as u32) {
        Ok(mut line) => answer_by(alloc, source, sink, question, text, &mut line, polls),
        Err(_) => Outcome::NoMemory,
    }
}

/// Takes the memory for a text of so many entries, and answers a question by it.
fn answer<S: Source, K: Sink>(
    alloc: Global,
    source: &mut S,
    sink: &mut K,
    question: Question<'_>,
    limit: u32,
    polls: u64,
) -> Outcome
    requires least { LEAST_JOURNAL ≤ limit }
    requires most { limit ≤ GREATEST_JOURNAL }
    ensures audits { let of_source = source_told S.given S.left S.faults in
        let of_sink = sink_told K.held K.unsent K.faults in
        Audits (Said.said question.entry) result (record {
          source = change (of_source source.old) (of_source source.new);
          sink = change (of_sink sink.old) (of_sink sink.new);
          limit = limit;
          polls = polls;
        }) }
{
    match Text::with_limit(alloc, limit, question.is_verdict()) {
        Ok(mut text) => answer_with(alloc, source, sink, question, &mut text, polls),
        Err(_) => Outcome::NoMemory,
    }
}

/// Judges the journal whose text a source gives: its first line, and then a line of up to 65,536 bytes for each entry,
/// of at most `limit`, where at most `polls` polls are made. It writes `lawful E` with the number of entries and
/// finishes, or it writes `unlawful I RULE` and ends by `Unlawful`, with the index of the first entry that breaks a
/// rule, from 0, and the first rule that it breaks. The first line that is not what it should be is a `BadEntry` with
/// its number, from 1, and so is a text without a line. Nothing is written before the end of the source was found.
pub fn audit<S: Source + Drop, K: Sink + Drop>(
    alloc: Global,
    mut source: S,
    mut sink: K,
    limit: u32,
    polls: u64,
) -> Audited<S, K>
    requires least { LEAST_JOURNAL ≤ limit }
    requires most { limit ≤ GREATEST_JOURNAL }
    requires few { polls < 2 ^ 32 }
    ensures audits { let of_source = source_told S.given S.left S.faults in
        let of_sink = sink_told K.held K.unsent K.faults in
        Audits Said.verdict result.outcome (record {
          source = change (of_source source) (of_source result.source);
          sink = change (of_sink sink) (of_sink result.sink);
          limit = limit;
          polls = polls;
        }) }
    ensures complete { let of_source = source_told S.given S.left S.faults in
        let of_sink = sink_told K.held K.unsent K.faults in
        IsComplete result.outcome (record {
          source = change (of_source source) (of_source result.source);
          sink = change (of_sink sink) (of_sink result.sink);
          limit = limit;
          polls = polls;
        }) }
{
    let wanted = Question::Verdict;
    let judged = answer(alloc, &mut source, &mut sink, wanted, limit, polls);
    Audited {
        outcome: judged,
        source,
        sink,
    }
}

/// Writes how the requests for a node were answered, by the journal whose text a source gives, which is read as `audit`
/// reads it, lawful or not: for each reply in order, where the first request of its number before it is for the node,
/// the line `MOMENT CLIENT KIND ANSWER` with the moment of the reply.
pub fn history<S: Source + Drop, K: Sink + Drop>(
    alloc: Global,
    mut source: S,
    mut sink: K,
    node: &str,
    limit: u32,
    polls: u64,
) -> Audited<S, K>
    requires least { LEAST_JOURNAL ≤ limit }
    requires most { limit ≤ GREATEST_JOURNAL }
    requires few { polls < 2 ^ 32 }
    ensures audits { let of_source = source_told S.given S.left S.faults in
        let of_sink = sink_told K.held K.unsent K.faults in
        Audits (Said.answers_for node.now) result.outcome (record {
          source = change (of_source source) (of_source result.source);
          sink = change (of_sink sink) (of_sink result.sink);
          limit = limit;
          polls = polls;
        }) }
    ensures complete { let of_source = source_told S.given S.left S.faults in
        let of_sink = sink_told K.held K.unsent K.faults in
        IsComplete result.outcome (record {
          source = change (of_source source) (of_source result.source);
          sink = change (of_sink sink) (of_sink result.sink);
          limit = limit;
          polls = polls;
        }) }
{
    let wanted = Question::Answers(node);
    let told = answer(alloc, &mut source, &mut sink, wanted, limit, polls);
    Audited {
        outcome: told,
        source,
        sink,
    }
}
