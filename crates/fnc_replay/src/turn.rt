// One turn of a session: a poll, and the lines of what it made.

ghost use Rattle.std.specs.Prelude.{◌≡◌, ◌≤◌, ◌+◌, [], ℕ, length, IfSome, IfNone};
ghost use Rattle.fnc_journal.specs.History.{History};
ghost use Rattle.fnc_journal.specs.Lawful.{Lawful};
ghost use Rattle.fnc_journal.specs.Prefix.{prefix};
ghost use Rattle.fnc_journal.specs.declared.limits.TheConstants.{LONGEST_LINE};
ghost use Rattle.fnc_journal_text.specs.declared.form.Form.{Form};
ghost use Rattle.fnc_replay.specs.Session.{
  Closes,
  Printed,
  Wrote,
  EndsBy,
  EndsWriting,
  HoldsSoFar,
  IsWriteFault,
  Puts,
  Turns,
  after_failed_flush,
};
ghost use Rattle.fnc_replay.specs.Room.{FoundRoom};
ghost use Rattle.fnc_told.specs.SourceAndSink.{SinkTold, SourceTold, change, sink_told, source_told};
ghost use Rattle.fnc_replay.specs.Heard.{HeardSoFar, HearsOn};

use crate::printed::{print_last, print_more};
use crate::taken::{Taken, take};
use crate::timed::Timed;
use fnc_journal::{Full, Journal, Outcome};
use fnc_journal_text::{Form, print_head};
use fnc_outside::{LineBuf, Sink, Source};

/// Writes what the text of a journal begins with. None where the session goes on.
pub(crate) fn write_head<K: Sink>(form: Form, sink: &mut K) -> Option<Outcome>
    ensures text { let of_sink = sink_told K.held K.unsent K.faults in
        Puts result form (change (of_sink sink.old) (of_sink sink.new)) [] }
    ensures cause { let of_sink = sink_told K.held K.unsent K.faults in
        IfSome result (λ o. IsWriteFault o (change (of_sink sink.old) (of_sink sink.new))) }
    ensures writes { K.faults sink.old ≤ K.faults sink.new }
{
    match print_head(form, sink) {
        Ok(()) => None,
        Err(_) => Some(Outcome::WriteFault),
    }
}

/// Sends on all that was written, before a read that may wait. None where the session goes on.
fn send_on<K: Sink>(sink: &mut K) -> Option<Outcome>
    ensures sent { IfNone result (K.unsent sink.new ≡ 0) }
    ensures text { let of_sink = sink_told K.held K.unsent K.faults in
        (start : SinkTold) (form : Form) (h : History) → HoldsSoFar form (change start (of_sink sink.old)) h
        → Puts result form (change start (of_sink sink.new)) h }
    ensures cause { let of_sink = sink_told K.held K.unsent K.faults in
        IfSome result (λ o. IsWriteFault o (change (of_sink sink.old) (of_sink sink.new))) }
    ensures writes { K.faults sink.old ≤ K.faults sink.new }
{
    match sink.flush() {
        Ok(()) => None,
        Err(_) => Some(Outcome::WriteFault),
    }
}

/// Writes what follows the text at the end of the source.
fn finish<K: Sink>(form: Form, journal: &Journal, sink: &mut K) -> Outcome
    requires { Lawful journal.now.history }
    ensures text { let of_sink = sink_told K.held K.unsent K.faults in
        (start : SinkTold) → HoldsSoFar form (change start (of_sink sink.old)) journal.now.history
        → Printed result form (change start (of_sink sink.new)) journal.now.history }
    ensures cause { let of_sink = sink_told K.held K.unsent K.faults in
        EndsWriting result (change (of_sink sink.old) (of_sink sink.new)) }
    ensures writes { K.faults sink.old ≤ K.faults sink.new }
{
    match print_last(form, journal, sink) {
        Ok(()) => Outcome::Finished,
        Err(_) => Outcome::WriteFault,
    }
}

/// Writes the lines of the entries from an index on. None where the session goes on.
fn write_on<K: Sink>(form: Form, journal: &Journal, from: u32, sink: &mut K) -> Option<Outcome>
    requires lawful { Lawful journal.now.history }
    requires within { from ≤ length journal.now.history }
    ensures text { let of_sink = sink_told K.held K.unsent K.faults in
        (start : SinkTold) → HoldsSoFar form (change start (of_sink sink.old)) (prefix from journal.now.history)
        → Puts result form (change start (of_sink sink.new)) journal.now.history }
    ensures cause { let of_sink = sink_told K.held K.unsent K.faults in
        IfSome result (λ o. IsWriteFault o (change (of_sink sink.old) (of_sink sink.new))) }
    ensures writes { K.faults sink.old ≤ K.faults sink.new }
{
    match print_more(form, journal, from, sink) {
        Ok(()) => None,
        Err(_) => Some(Outcome::WriteFault),
    }
}

/// Writes the replies of the advance of a line that found no room.
fn write_full<K: Sink>(
    form: Form,
    journal: &Journal,
    from: u32,
    sink: &mut K,
    full: Full,
) -> Outcome
    requires lawful { Lawful journal.now.history }
    requires within { from ≤ length journal.now.history }
    ensures text { let of_sink = sink_told K.held K.unsent K.faults in
        (start : SinkTold) → HoldsSoFar form (change start (of_sink sink.old)) (prefix from journal.now.history)
        → Printed result form (change start (of_sink sink.new)) journal.now.history }
    ensures outcome { result ≡ Outcome.JournalFull full }
    ensures writes { K.faults sink.old ≤ K.faults sink.new }
{
    // the session ends here, whether or not its last lines can be written
    let _ = print_more(form, journal, from, sink);
    Outcome::JournalFull(full)
}

/// The outcome where the last flush fails: a failed write, unless the session had ended before by that or
/// another cause of its own.
fn after_failed_flush(outcome: Outcome) -> Outcome
    ensures { result ≡ after_failed_flush outcome }
{
    match outcome {
        Outcome::Finished | Outcome::Budget => Outcome::WriteFault,
        _ => outcome,
    }
}

/// Sends on all that was written, before the outcome.
pub(crate) fn close<K: Sink>(sink: &mut K, outcome: Outcome) -> Outcome
    ensures text { let of_sink = sink_told K.held K.unsent K.faults in
        (start : SinkTold) (form : Form) (h : History) → start.faults ≤ K.faults sink.old
        → Printed outcome form (change start (of_sink sink.old)) h
        → Wrote result form (change start (of_sink sink.new)) h }
    ensures closes { let of_sink = sink_told K.held K.unsent K.faults in
        Closes outcome result (change (of_sink sink.old) (of_sink sink.new)) }
    ensures writes { K.faults sink.old ≤ K.faults sink.new }
{
    match sink.flush() {
        Ok(()) => outcome,
        Err(_) => after_failed_flush(outcome),
    }
}

/// One turn: polls the source once, serves what it gave, and writes the lines of what that made; where no
/// line is there yet, it sends on what was written. None where the session goes on.
pub(crate) fn turn<S: Source, K: Sink>(
    source: &mut S,
    sink: &mut K,
    desk: &mut Timed,
    line: &mut LineBuf,
    form: Form,
) -> Option<Outcome>
    requires holds_none { line.old.bytes ≡ [] }
    requires longest { line.old.size ≡ LONGEST_LINE }
    ensures text { let of_sink = sink_told K.held K.unsent K.faults in
        (start : SinkTold) → HoldsSoFar form (change start (of_sink sink.old)) desk.old.history
        → Puts result form (change start (of_sink sink.new)) desk.new.history }
    ensures turns { Turns result desk.old desk.new }
    ensures cause { let of_source = source_told S.given S.left S.faults in
        let of_sink = sink_told K.held K.unsent K.faults in
        IfSome result (λ o. EndsBy o (change (of_source source.old) (of_source source.new))
        (change (of_sink sink.old) (of_sink sink.new)) desk.new) }
    ensures heard { let of_source = source_told S.given S.left S.faults in
        (start : SourceTold) (made : ℕ) → HeardSoFar (change start (of_source source.old)) made desk.old
        → HearsOn result (change start (of_source source.new)) (made + 1) desk.new }
    ensures room { FoundRoom desk.old.limit desk.old.history → FoundRoom desk.old.limit desk.new.history }
    ensures limit { desk.new.limit ≡ desk.old.limit }
    ensures reads { S.faults source.old ≤ S.faults source.new }
    ensures writes { K.faults sink.old ≤ K.faults sink.new }
    ensures empty { line.new.bytes ≡ [] }
    ensures size { line.new.size ≡ line.old.size }
{
    let written = desk.journal().len();
    match take(source, desk, line) {
        Taken::Nothing => send_on(sink),
        Taken::Served => write_on(form, desk.journal(), written, sink),
        Taken::Full(full) => Some(write_full(form, desk.journal(), written, sink, full)),
        Taken::Over => Some(finish(form, desk.journal(), sink)),
        Taken::Failed => Some(Outcome::ReadFault),
    }
}
