// All turns of a session, from its opening until it ends.

ghost use Rattle.std.specs.Prelude.{◌≡◌, ◌≤◌, []};
ghost use Rattle.fnc_journal.specs.declared.limits.TheConstants.{LONGEST_LINE};
ghost use Rattle.fnc_journal.specs.Driven.{Driven};
ghost use Rattle.fnc_replay.specs.Heard.{Heard};
ghost use Rattle.fnc_replay.specs.Room.{FoundRoom};
ghost use Rattle.fnc_replay.specs.Session.{EndsSession, Printed};
ghost use Rattle.fnc_told.specs.SourceAndSink.{change, source_told, sink_told};

use crate::timed::Timed;
use crate::turn::{turn, write_head};
use fnc_journal::Outcome;
use fnc_journal_text::Form;
use fnc_outside::{LineBuf, Sink, Source};

/// How the turns of a session ended, and how many polls were made.
#[derive(Clone, Copy, Debug)]
pub(crate) struct Ended {
    pub(crate) outcome: Outcome,
    pub(crate) polls: u64,
}

/// Writes what the text of a journal begins with, and makes turns until one ends the session or `polls`
/// polls were made.
pub(crate) fn take_turns<S: Source, K: Sink>(
    source: &mut S,
    sink: &mut K,
    desk: &mut Timed,
    line: &mut LineBuf,
    form: Form,
    polls: u64,
) -> Ended
    requires holds_none { line.old.bytes ≡ [] }
    requires longest { line.old.size ≡ LONGEST_LINE }
    requires no_history { desk.old.history ≡ [] }
    requires at_first { desk.old.last ≡ 0 }
    ensures text { let of_sink = sink_told K.held K.unsent K.faults in
        Printed result.outcome form (change (of_sink sink.old) (of_sink sink.new)) desk.new.history }
    ensures driven { Driven desk.new.history }
    ensures cause { let of_source = source_told S.given S.left S.faults in
        let of_sink = sink_told K.held K.unsent K.faults in
        EndsSession result.outcome (change (of_source source.old) (of_source source.new))
        (change (of_sink sink.old) (of_sink sink.new)) (record { made = result.polls; allowed = polls }) desk.new }
    ensures heard { let of_source = source_told S.given S.left S.faults in
        Heard result.outcome (change (of_source source.old) (of_source source.new)) result.polls desk.new }
    ensures room { FoundRoom desk.new.limit desk.new.history }
    ensures limit { desk.new.limit ≡ desk.old.limit }
    ensures polls { result.polls ≤ polls }
    ensures writes { K.faults sink.old ≤ K.faults sink.new }
{
    match write_head(form, sink) {
        None => {}
        Some(outcome) => return Ended { outcome, polls: 0 },
    }
    for made in 0..polls {
        match turn(source, sink, desk, line, form) {
            None => {}
            Some(outcome) => {
                return Ended {
                    outcome,
                    polls: made + 1,
                };
            }
        }
    }
    Ended {
        outcome: Outcome::Budget,
        polls,
    }
}
