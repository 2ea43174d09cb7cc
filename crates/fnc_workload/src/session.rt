// A whole workload.

ghost use Rattle.std.specs.Prelude.{◌≡◌, ◌≤◌, [], IfNone, IfSome, OnOk, OnErr};
ghost use Rattle.fnc_journal.specs.Driven.{Driven};
ghost use Rattle.fnc_journal.specs.declared.limits.TheConstants.{GREATEST_JOURNAL, LONGEST_LINE};
ghost use Rattle.fnc_outside.specs.Told.{Gains};
ghost use Rattle.fnc_replay.specs.Rests.{Rests};
ghost use Rattle.fnc_replay.specs.Session.{IsServed, cored};
ghost use Rattle.fnc_told.specs.Held.{HoldsFront, SentOn, SinkFaulted};
ghost use Rattle.fnc_told.specs.SourceAndSink.{change, sink_told};
ghost use Rattle.fnc_workload.specs.Lines.{IsCut, IsWhole};
ghost use Rattle.fnc_workload.specs.Summed.{summary_line};
ghost use Rattle.fnc_workload.specs.Turns.{Ends, Stands, course_of};
ghost use Rattle.fnc_workload.specs.Worked.{EndsAt, Leaves, Writes};

use crate::making::Making;
use crate::summary::print_summary;
use crate::turn::{Turned, Worker, turn};
use fnc_answered::all_are_answered;
use fnc_journal::limits::{GREATEST_JOURNAL, LONGEST_LINE};
use fnc_journal::{Full, Journal, Outcome};
use fnc_made::made_lines_are_plain;
use fnc_outside::{LineBuf, Sink, SinkFailed};
use fnc_replay::Timed;
use std::alloc::Global;

/// How a workload ended: its outcome, its journal, and the sink. There is no journal exactly where memory was refused at
/// the opening.
#[derive(Drop)]
pub struct Worked<K: Drop> {
    pub outcome: Outcome,
    pub journal: Option<Journal>,
    pub sink: K,
}

/// Makes lines and serves them, until no line is left, or one finds no room.
fn work(desk: &mut Timed, line: &mut LineBuf, worker: &mut Worker) -> Option<Full>
    requires stands { Stands worker.old desk.old }
    requires size { line.old.size ≡ LONGEST_LINE }
    requires limit { desk.old.limit ≡ GREATEST_JOURNAL }
    ensures cut { IfSome result (λ full. IsCut (course_of worker.old) desk.new full) }
    ensures whole { IfNone result (IsWhole (course_of worker.old) desk.new) }
    ensures rests { IfNone result (Rests desk.new) }
    ensures driven { Driven desk.new.history }
    ensures limit { desk.new.limit ≡ GREATEST_JOURNAL }
{
    loop {
        match turn(desk, line, worker) {
            Turned::Served => {}
            Turned::Full(full) => return Some(full),
            Turned::Whole => return None,
        }
    }
}

/// Writes the line that sums up a journal, and sends it on.
fn sum_up<K: Sink>(
    journal: &Journal,
    number: u64,
    count: u32,
    sink: &mut K,
) -> Result<(), SinkFailed>
    ensures ok { let of_sink = sink_told K.held K.unsent K.faults in
        OnOk result (SentOn (change (of_sink sink.old) (of_sink sink.new))
        (summary_line (record { number = number; count = count }) journal.now.history)) }
    ensures err { let of_sink = sink_told K.held K.unsent K.faults in
        OnErr result (HoldsFront (change (of_sink sink.old) (of_sink sink.new))
        (summary_line (record { number = number; count = count }) journal.now.history)) }
    ensures cause { let of_sink = sink_told K.held K.unsent K.faults in
        OnErr result (SinkFaulted (change (of_sink sink.old) (of_sink sink.new))) }
{
    print_summary(journal, number, count, sink)?;
    sink.flush()
}

/// Makes all lines, serves them, and sums up.
fn run<K: Sink>(
    desk: &mut Timed,
    line: &mut LineBuf,
    number: u64,
    count: u32,
    sink: &mut K,
) -> Outcome
    requires few { count ≤ 100_000 }
    requires size { line.old.size ≡ LONGEST_LINE }
    requires limit { desk.old.limit ≡ GREATEST_JOURNAL }
    requires no_history { desk.old.history ≡ [] }
    requires at_first { desk.old.last ≡ 0 }
    ensures over { Leaves result desk.new.history }
    ensures ends { EndsAt result (record { number = number; count = count }) desk.new }
    ensures writes { let of_sink = sink_told K.held K.unsent K.faults in
        Writes result (record { number = number; count = count }) (change (of_sink sink.old) (of_sink sink.new))
        desk.new.history }
    ensures driven { Driven desk.new.history }
    ensures limit { desk.new.limit ≡ GREATEST_JOURNAL }
{
    let making = Making {
        state: number,
        moment: 0,
        made: 0,
    };
    let mut worker = Worker {
        number,
        count,
        making,
        past: 0,
    };
    if let Some(full) = work(desk, line, &mut worker) {
        return Outcome::JournalFull(full);
    }
    made_lines_are_plain();
    all_are_answered();
    match sum_up(desk.journal(), number, count, sink) {
        Ok(()) => Outcome::Finished,
        Err(_) => Outcome::WriteFault,
    }
}

/// Runs a session that makes its own lines: its draws begin with `number`, and after its opening it makes `count` steps
/// and ends the runs that are left. Then it writes one line with the counts of its journal. A line for which the journal
/// of 1,048,576 entries has no room ends it before.
pub fn workload<K: Sink + Drop>(alloc: Global, number: u64, count: u32, mut sink: K) -> Worked<K>
    requires some { 1 ≤ count }
    requires few { count ≤ 100_000 }
    ensures none { IfNone result.journal (result.outcome ≡ Outcome.NoMemory) }
    ensures nothing { IfNone result.journal (Gains (K.held sink) (K.held result.sink) []) }
    ensures served { IfSome result.journal (λ j. IsServed j.history) }
    ensures limit { IfSome result.journal (λ j. j.limit ≡ 1_048_576) }
    ensures lines { IfSome result.journal (λ j.
        EndsAt result.outcome (record { number = number; count = count }) (cored j)) }
    ensures over { IfSome result.journal (λ j. Leaves result.outcome j.history) }
    ensures summary { let of_sink = sink_told K.held K.unsent K.faults in
        IfSome result.journal (λ j. Writes result.outcome (record { number = number; count = count })
        (change (of_sink sink) (of_sink result.sink)) j.history) }
{
    let (Ok(mut desk), Ok(mut line)) = (
        Timed::with_limit(alloc, GREATEST_JOURNAL),
        LineBuf::with_size(alloc, LONGEST_LINE as u32),
    ) else {
        return Worked {
            outcome: Outcome::NoMemory,
            journal: None,
            sink,
        };
    };
    let outcome = run(&mut desk, &mut line, number, count, &mut sink);
    Worked {
        outcome,
        journal: Some(desk.into_journal()),
        sink,
    }
}
