// What is said of a journal at the end of its text.

ghost use Rattle.std.specs.Prelude.{◌≡◌, ◌≤◌, ℕ, List, OnOk, OnErr};
ghost use Rattle.fnc_outside.specs.Faults.{Rose};
ghost use Rattle.fnc_outside.specs.Told.{Gains};
ghost use Rattle.fnc_outside.specs.Writes.{AppendsPart};
ghost use Rattle.fnc_told.specs.SourceAndSink.{SinkTold, change, sink_told};
ghost use Rattle.fnc_audit.specs.Reading.{Finishes, IsWritten};
ghost use Rattle.fnc_audit.specs.Said.{answers_for, said, verdict};
ghost use Rattle.fnc_audit.specs.Texted.{read};

use crate::question::Question;
use crate::replies::print_answers;
use crate::text::{Awaited, Text};
use crate::verdicts::{print_verdict, verdict_outcome};
use fnc_journal::Outcome;
use fnc_outside::{Sink, SinkFailed};

/// Sends on what was printed. The outcome is the one that is said, where nothing failed.
fn send_on<K: Sink>(printed: Result<(), SinkFailed>, outcome: Outcome, sink: &mut K) -> Outcome
    ensures { let of_sink = sink_told K.held K.unsent K.faults in
        (start : SinkTold) (text : List ℕ) → OnOk printed (Gains start.held (K.held sink.old) text)
        → OnErr printed (AppendsPart start.held (K.held sink.old) text) → start.faults ≤ K.faults sink.old
        → OnErr printed (Rose start.faults (K.faults sink.old))
        → IsWritten result outcome (change start (of_sink sink.new)) text }
{
    match printed {
        Ok(()) => match sink.flush() {
            Ok(()) => outcome,
            Err(SinkFailed) => Outcome::WriteFault,
        },
        Err(SinkFailed) => Outcome::WriteFault,
    }
}

/// Writes the verdict on a text's journal.
fn say_verdict<K: Sink>(text: &Text, sink: &mut K) -> Outcome
    ensures { let of_sink = sink_told K.held K.unsent K.faults in
        IsWritten result (verdict text.now.history).outcome (change (of_sink sink.old) (of_sink sink.new))
        (verdict text.now.history).text }
{
    let verdict = text.verdict();
    let printed = print_verdict(verdict, text.journal().len(), sink);
    send_on(printed, verdict_outcome(verdict), sink)
}

/// Writes the answers to the requests for a node.
fn say_answers<K: Sink>(text: &Text, node: &str, sink: &mut K) -> Outcome
    ensures { let of_sink = sink_told K.held K.unsent K.faults in
        IsWritten result (answers_for node.now text.now.history).outcome (change (of_sink sink.old) (of_sink sink.new))
        (answers_for node.now text.now.history).text }
{
    let printed = print_answers(text.journal(), node, sink);
    send_on(printed, Outcome::Finished, sink)
}

/// Writes what is said to a question.
fn say<K: Sink>(text: &Text, question: Question<'_>, sink: &mut K) -> Outcome
    ensures { let of_sink = sink_told K.held K.unsent K.faults in
        IsWritten result (said question.entry text.now.history).outcome (change (of_sink sink.old) (of_sink sink.new))
        (said question.entry text.now.history).text }
{
    match question {
        Question::Verdict => say_verdict(text, sink),
        Question::Answers(node) => say_answers(text, node, sink),
    }
}

/// Writes what is said of a text at the end of its source, and sends it on. A text without a line lacks its first.
pub(crate) fn finish<K: Sink>(text: &Text, question: Question<'_>, sink: &mut K) -> Outcome
    ensures { let of_sink = sink_told K.held K.unsent K.faults in
        Finishes (said question.entry) result (change (of_sink sink.old) (of_sink sink.new)) (read text.now) }
{
    match text.awaited() {
        Awaited::Head => Outcome::BadEntry { line: 1 },
        Awaited::Entry => say(text, question, sink),
    }
}
