// A command: its words, what it reads and what it writes.

ghost use Rattle.std.specs.Prelude.{◌≡◌, ◌≤◌, ◌⊎◌, None, Some, IfSome, IfNone, map, string_bytes};
ghost use Rattle.fnc_told.specs.SourceAndSink.{change, source_told, sink_told};
ghost use Rattle.fnc_words.specs.Commands.{HasLimits, command_of};
ghost use Rattle.fnc_cli.specs.Tool.{RunsWith, RunsWithout, outcome_of};

use fnc_audit::{Audited, audit, history};
use fnc_journal::{Journal, Outcome};
use fnc_outside::{Sink, Source};
use fnc_replay::{Replayed, replay};
use fnc_words::{Command, WordsFault, read_words};
use fnc_workload::{Worked, workload};
use std::alloc::Global;

/// The most polls that a command makes.
const POLLS: u64 = 4_294_967_295;

/// What a command came to: its outcome, the journal of its session and the polls that this made, and the source and the
/// sink. There is a journal exactly where a session ran: `replay` or `workload` whose opening found its memory.
#[derive(Drop)]
pub struct Tooled<S: Drop, K: Drop> {
    pub outcome: Outcome,
    pub journal: Option<Journal>,
    pub polls: u64,
    pub source: S,
    pub sink: K,
}

/// What a command line comes to whose words are no command.
fn outcome_of(fault: WordsFault) -> Outcome
    ensures { result ≡ outcome_of fault }
{
    match fault {
        WordsFault::NoCommand => Outcome::Usage,
        WordsFault::NoMemory => Outcome::NoMemory,
    }
}

/// What a session came to.
fn of_session<S: Source + Drop, K: Sink + Drop>(replayed: Replayed<S, K>) -> Tooled<S, K>
    ensures outcome { result.outcome ≡ replayed.outcome }
    ensures journal { result.journal ≡ replayed.journal }
    ensures polls { result.polls ≡ replayed.polls }
    ensures source { result.source ≡ replayed.source }
    ensures sink { result.sink ≡ replayed.sink }
{
    Tooled {
        outcome: replayed.outcome,
        journal: replayed.journal,
        polls: replayed.polls,
        source: replayed.source,
        sink: replayed.sink,
    }
}

/// What the reading of a journal's text came to.
fn of_text<S: Source + Drop, K: Sink + Drop>(audited: Audited<S, K>) -> Tooled<S, K>
    ensures outcome { result.outcome ≡ audited.outcome }
    ensures journal { result.journal ≡ None }
    ensures polls { result.polls ≡ 0 }
    ensures source { result.source ≡ audited.source }
    ensures sink { result.sink ≡ audited.sink }
{
    Tooled {
        outcome: audited.outcome,
        journal: None,
        polls: 0,
        source: audited.source,
        sink: audited.sink,
    }
}

/// What a workload came to, which reads nothing of the source.
fn of_workload<S: Source + Drop, K: Sink + Drop>(worked: Worked<K>, source: S) -> Tooled<S, K>
    ensures outcome { result.outcome ≡ worked.outcome }
    ensures journal { result.journal ≡ worked.journal }
    ensures polls { result.polls ≡ 0 }
    ensures source { result.source ≡ source }
    ensures sink { result.sink ≡ worked.sink }
{
    Tooled {
        outcome: worked.outcome,
        journal: worked.journal,
        polls: 0,
        source,
        sink: worked.sink,
    }
}

/// Runs a command.
fn run<S: Source + Drop, K: Sink + Drop>(
    alloc: Global,
    command: Command,
    source: S,
    sink: K,
) -> Tooled<S, K>
    requires { HasLimits command }
    ensures session { let of_source = source_told S.given S.left S.faults in
        let of_sink = sink_told K.held K.unsent K.faults in
        IfSome result.journal (RunsWith (Some command) result.outcome
        (change (of_source source) (of_source result.source)) (change (of_sink sink) (of_sink result.sink))
        (record { made = result.polls; allowed = 4_294_967_295 })) }
    ensures without { let of_source = source_told S.given S.left S.faults in
        let of_sink = sink_told K.held K.unsent K.faults in
        IfNone result.journal (RunsWithout (Some command) result.outcome
        (change (of_source source) (of_source result.source)) (change (of_sink sink) (of_sink result.sink))
        (record { made = result.polls; allowed = 4_294_967_295 })) }
    ensures polls { result.polls ≤ 4_294_967_295 }
    ensures usage { result.outcome ≡ Outcome.Usage → ⊥ }
{
    match command {
        Command::Replay(session) => {
            of_session(replay(alloc, source, sink, session.entries, session.form, POLLS))
        }
        Command::Audit(asked) => of_text(audit(alloc, source, sink, asked.entries, POLLS)),
        Command::History(asked) => of_text(history(
            alloc,
            source,
            sink,
            asked.node.as_str(),
            asked.entries,
            POLLS,
        )),
        Command::Workload(course) => {
            of_workload(workload(alloc, course.number, course.count, sink), source)
        }
    }
}

/// Runs the command that the words name, without the program's own name. `replay [--entries N] [--journal]` replays
/// the lines of the source, with a journal of so many entries, and writes the answers or the journal to the sink;
/// `workload NUMBER COUNT` runs a session that it makes itself, and writes one line with the counts of its journal:
/// `RunsWith` says what the journal that is handed back is worth. `audit [--entries N]` and
/// `history [--entries N] NODE` read a journal's text, and write the verdict on it, or what was answered of the node:
/// `RunsWithout` says what that is worth. Words that `command_of` takes for no command are `Usage`, and only those are;
/// want of memory may stand in its place.
pub fn run_tool<S: Source + Drop, K: Sink + Drop>(
    alloc: Global,
    words: &[String],
    source: S,
    sink: K,
) -> Tooled<S, K>
    ensures usage { result.outcome ≡ Outcome.Usage → command_of (map string_bytes words.now) ≡ None }
    ensures no_command { command_of (map string_bytes words.now) ≡ None
        → (result.outcome ≡ Outcome.Usage) ⊎ (result.outcome ≡ Outcome.NoMemory) }
    ensures session { let of_source = source_told S.given S.left S.faults in
        let of_sink = sink_told K.held K.unsent K.faults in
        IfSome result.journal (RunsWith (command_of (map string_bytes words.now)) result.outcome
        (change (of_source source) (of_source result.source)) (change (of_sink sink) (of_sink result.sink))
        (record { made = result.polls; allowed = 4_294_967_295 })) }
    ensures without { let of_source = source_told S.given S.left S.faults in
        let of_sink = sink_told K.held K.unsent K.faults in
        IfNone result.journal (RunsWithout (command_of (map string_bytes words.now)) result.outcome
        (change (of_source source) (of_source result.source)) (change (of_sink sink) (of_sink result.sink))
        (record { made = result.polls; allowed = 4_294_967_295 })) }
    ensures polls { result.polls ≤ 4_294_967_295 }
{
    match read_words(alloc, words) {
        Ok(command) => run(alloc, command, source, sink),
        Err(fault) => Tooled {
            outcome: outcome_of(fault),
            journal: None,
            polls: 0,
            source,
            sink,
        },
    }
}
