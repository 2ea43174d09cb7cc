// A whole session.

ghost use Rattle.std.specs.Prelude.{◌≡◌, ◌≤◌, ◌<◌, ◌^◌, [], IfSome, IfNone};
ghost use Rattle.fnc_outside.specs.Told.{Gains};
ghost use Rattle.fnc_replay.specs.Session.{Wrote, HasCause, IsComplete, IsServed, cored};
ghost use Rattle.fnc_told.specs.SourceAndSink.{change, source_told, sink_told};
ghost use Rattle.fnc_replay.specs.Heard.{Heard};
ghost use Rattle.fnc_replay.specs.Room.{KeepsRoom};

use crate::timed::Timed;
use crate::turn::close;
use crate::turns::take_turns;
use fnc_journal::limits::{GREATEST_JOURNAL, LEAST_JOURNAL, LONGEST_LINE};
use fnc_journal::{Journal, Outcome};
use fnc_journal_text::Form;
use fnc_outside::{LineBuf, Sink, Source};
use std::alloc::Global;

/// How a session ended: its outcome, its journal, the polls that were made, and the source and the sink.
/// There is no journal exactly where memory was refused at the opening.
#[derive(Drop)]
pub struct Replayed<S: Drop, K: Drop> {
    pub outcome: Outcome,
    pub journal: Option<Journal>,
    pub polls: u64,
    pub source: S,
    pub sink: K,
}

/// Replays the lines of a source: each is entered, and all starts are made; then the text of the new
/// entries is written, in the form that is wanted. The form of a journal begins with its first line; the
/// answers end with the end line at the end of the source. The session ends there, at a fault of the source
/// or of the sink, at a line without room in the journal of `limit` entries, or when `polls` polls were made.
/// What was written is sent on whenever no line is there yet, and before the session ends.
pub fn replay<S: Source + Drop, K: Sink + Drop>(
    alloc: Global,
    mut source: S,
    mut sink: K,
    limit: u32,
    form: Form,
    polls: u64,
) -> Replayed<S, K>
    requires least { LEAST_JOURNAL ≤ limit }
    requires most { limit ≤ GREATEST_JOURNAL }
    requires few { polls < 2 ^ 32 }
    ensures none { IfNone result.journal (result.outcome ≡ Outcome.NoMemory) }
    ensures nothing_read { IfNone result.journal (Gains (S.given source) (S.given result.source) []) }
    ensures nothing_written { IfNone result.journal (Gains (K.held sink) (K.held result.sink) []) }
    ensures unpolled { IfNone result.journal (result.polls ≡ 0) }
    ensures served { IfSome result.journal (λ j. IsServed j.history) }
    ensures limit { IfSome result.journal (λ j. j.limit ≡ limit) }
    ensures room { IfSome result.journal (λ j. KeepsRoom j.limit j.history) }
    ensures text { let of_sink = sink_told K.held K.unsent K.faults in IfSome result.journal (λ j.
        Wrote result.outcome form (change (of_sink sink) (of_sink result.sink)) j.history) }
    ensures cause { let of_source = source_told S.given S.left S.faults in
        let of_sink = sink_told K.held K.unsent K.faults in
        IfSome result.journal (λ j.
        HasCause result.outcome (change (of_source source) (of_source result.source))
        (change (of_sink sink) (of_sink result.sink)) (record { made = result.polls; allowed = polls }) j) }
    ensures complete { let of_source = source_told S.given S.left S.faults in
        let of_sink = sink_told K.held K.unsent K.faults in
        IfSome result.journal (λ j.
        IsComplete result.outcome (change (of_source source) (of_source result.source))
        (change (of_sink sink) (of_sink result.sink)) (record { made = result.polls; allowed = polls }) j) }
    ensures heard { let of_source = source_told S.given S.left S.faults in
        IfSome result.journal (λ j.
        Heard result.outcome (change (of_source source) (of_source result.source)) result.polls (cored j)) }
    ensures polls { result.polls ≤ polls }
{
    let (Ok(mut desk), Ok(mut line)) = (
        Timed::with_limit(alloc, limit),
        LineBuf::with_size(alloc, LONGEST_LINE as u32),
    ) else {
        return Replayed {
            outcome: Outcome::NoMemory,
            journal: None,
            polls: 0,
            source,
            sink,
        };
    };
    let ended = take_turns(&mut source, &mut sink, &mut desk, &mut line, form, polls);
    Replayed {
        outcome: close(&mut sink, ended.outcome),
        journal: Some(desk.into_journal()),
        polls: ended.polls,
        source,
        sink,
    }
}
