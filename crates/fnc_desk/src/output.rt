// What is printed of a journal, line by line: its starts, replies and refusals as they come, and how it
// stands at the end.

ghost use Rattle.std.specs.Prelude.{◌≡◌, ◌<◌, ◌≤◌, ◌++◌, ℕ, List, [], Option, OnOk, OnErr, length};
ghost use Rattle.fnc_outside.specs.Faults.{Rose};
ghost use Rattle.fnc_outside.specs.Told.{Gains};
ghost use Rattle.fnc_outside.specs.Writes.{AppendsPart};
ghost use Rattle.fnc_journal.specs.declared.event.Event.{Event};
ghost use Rattle.fnc_journal.specs.Lawful.{Lawful};
ghost use Rattle.fnc_journal.specs.Line as Line;
ghost use Rattle.fnc_journal.specs.Prefix.{prefix};
ghost use Rattle.fnc_printing.specs.Printed.{piece_text};

use crate::tally::{alive, counted};
use fnc_journal::{Answer, Event, Journal, Refusal, Reg, Reply, Req, Start};
use fnc_outside::{Sink, SinkFailed};
use fnc_printing::{Piece, print_pieces};

/// The name of a registration, nothing where there is no such registration.
fn name_of(journal: &Journal, reg: Reg) -> &str
    ensures { result.now ≡ Line.name_of reg.0 journal.now.history }
{
    match journal.registration(reg) {
        Some(registration) => registration.name.as_str(),
        None => "",
    }
}

/// The target of a request, nothing where there is no such request.
pub(crate) fn target_of(journal: &Journal, req: Req) -> &str
    ensures { result.now ≡ Line.target_of req.0 journal.now.history }
{
    match journal.request(req) {
        Some(request) => request.target.as_str(),
        None => "",
    }
}

/// The words of an answer, in two pieces.
fn answer_words(answer: Answer) -> (Piece<'static>, Piece<'static>)
    ensures { piece_text result.0 ++ piece_text result.1 ≡ Line.answer_words answer }
{
    match answer {
        Answer::Passed(level) => (Piece::Word("ok level "), Piece::Number(u64::from(level))),
        Answer::Levels => (Piece::Word("failed "), Piece::Word("levels")),
        Answer::Time => (Piece::Word("failed "), Piece::Word("time")),
        Answer::NoDevice => (Piece::Word("failed "), Piece::Word("none")),
        Answer::Confirmed => (Piece::Word("ok "), Piece::Word("confirmed")),
    }
}

/// Prints the line of a start of the journal.
fn print_start<K: Sink>(journal: &Journal, start: &Start, sink: &mut K) -> Result<(), SinkFailed>
    ensures ok { OnOk result (Gains (K.held sink.old) (K.held sink.new)
        (Line.line_of (Event.Start start.now) journal.now.history)) }
    ensures err { OnErr result (AppendsPart (K.held sink.old) (K.held sink.new)
        (Line.line_of (Event.Start start.now) journal.now.history)) }
    ensures count { K.faults sink.old ≤ K.faults sink.new }
    ensures cause { OnErr result (Rose (K.faults sink.old) (K.faults sink.new)) }
{
    print_pieces(
        &[
            Piece::Word("start "),
            Piece::Number(u64::from(start.run.0)),
            Piece::Word(" "),
            Piece::Name(name_of(journal, start.reg)),
            Piece::Word(" "),
            Piece::Word(start.kind.word()),
            Piece::Word(" "),
            Piece::Name(target_of(journal, start.req)),
            Piece::Word(" try "),
            Piece::Number(u64::from(start.attempt)),
            Piece::Word("\n"),
        ],
        sink,
    )
}

/// Prints the line of a reply.
fn print_reply<K: Sink>(reply: &Reply, sink: &mut K) -> Result<(), SinkFailed>
    ensures ok { OnOk result (Gains (K.held sink.old) (K.held sink.new) (Line.line_of (Event.Reply reply.now) [])) }
    ensures err { OnErr result (AppendsPart (K.held sink.old) (K.held sink.new)
        (Line.line_of (Event.Reply reply.now) [])) }
    ensures count { K.faults sink.old ≤ K.faults sink.new }
    ensures cause { OnErr result (Rose (K.faults sink.old) (K.faults sink.new)) }
{
    let (first, second) = answer_words(reply.answer);
    print_pieces(
        &[
            Piece::Word("answer "),
            Piece::Number(u64::from(reply.req.0)),
            Piece::Word(" "),
            first,
            second,
            Piece::Word("\n"),
        ],
        sink,
    )
}

/// Prints the line of a refusal.
fn print_refusal<K: Sink>(refusal: &Refusal, sink: &mut K) -> Result<(), SinkFailed>
    ensures ok { OnOk result (Gains (K.held sink.old) (K.held sink.new) (Line.line_of (Event.Refused refusal.now) [])) }
    ensures err { OnErr result (AppendsPart (K.held sink.old) (K.held sink.new)
        (Line.line_of (Event.Refused refusal.now) [])) }
    ensures count { K.faults sink.old ≤ K.faults sink.new }
    ensures cause { OnErr result (Rose (K.faults sink.old) (K.faults sink.new)) }
{
    print_pieces(
        &[
            Piece::Word("refused "),
            Piece::Number(u64::from(refusal.line)),
            Piece::Word(" "),
            Piece::Word(refusal.cause.word()),
            Piece::Word("\n"),
        ],
        sink,
    )
}

/// Prints the line of an event of the journal: of a start, a reply or a refusal; no byte of any other.
fn print_event<K: Sink>(journal: &Journal, event: &Event, sink: &mut K) -> Result<(), SinkFailed>
    ensures ok { OnOk result (Gains (K.held sink.old) (K.held sink.new)
        (Line.line_of event.now journal.now.history)) }
    ensures err { OnErr result (AppendsPart (K.held sink.old) (K.held sink.new)
        (Line.line_of event.now journal.now.history)) }
    ensures count { K.faults sink.old ≤ K.faults sink.new }
    ensures cause { OnErr result (Rose (K.faults sink.old) (K.faults sink.new)) }
{
    match event {
        Event::Start(start) => print_start(journal, start, sink),
        Event::Reply(reply) => print_reply(reply, sink),
        Event::Refused(refusal) => print_refusal(refusal, sink),
        _ => Ok(()),
    }
}

/// Prints the line of the entry of an index, counted from 0 at the oldest. Where a write fails a part
/// from the front of the line was printed.
pub fn print_line<K: Sink>(journal: &Journal, index: u32, sink: &mut K) -> Result<(), SinkFailed>
    requires lawful { Lawful journal.now.history }
    requires within { index < length journal.now.history }
    ensures ok { OnOk result (Gains (K.held sink.old) (K.held sink.new) (Line.line_at index journal.now.history)) }
    ensures err { OnErr result (AppendsPart (K.held sink.old) (K.held sink.new)
        (Line.line_at index journal.now.history)) }
    ensures count { K.faults sink.old ≤ K.faults sink.new }
    ensures cause { OnErr result (Rose (K.faults sink.old) (K.faults sink.new)) }
{
    print_event(journal, &journal.entry(index).event, sink)
}

/// Prints the lines of the entries from an index on. Where the sink holds what is printed of the
/// entries before, it then holds what is printed of the whole journal, or a part from the front of it
/// where a write failed.
pub fn print_from<K: Sink>(journal: &Journal, from: u32, sink: &mut K) -> Result<(), SinkFailed>
    requires lawful { Lawful journal.now.history }
    requires within { from ≤ length journal.now.history }
    ensures ok { (start : Option (List ℕ))
        → Gains start (K.held sink.old) (Line.answers_text (prefix from journal.now.history))
        → OnOk result (Gains start (K.held sink.new) (Line.answers_text journal.now.history)) }
    ensures err { (start : Option (List ℕ))
        → Gains start (K.held sink.old) (Line.answers_text (prefix from journal.now.history))
        → OnErr result (AppendsPart start (K.held sink.new) (Line.answers_text journal.now.history)) }
    ensures count { K.faults sink.old ≤ K.faults sink.new }
    ensures cause { OnErr result (Rose (K.faults sink.old) (K.faults sink.new)) }
{
    for index in from..journal.len() {
        print_line(journal, index, sink)?;
    }
    Ok(())
}

/// Prints the last line of a session: how many requests were asked and answered, and how many runs are
/// alive.
pub fn print_end<K: Sink>(journal: &Journal, sink: &mut K) -> Result<(), SinkFailed>
    requires { Lawful journal.now.history }
    ensures ok { OnOk result (Gains (K.held sink.old) (K.held sink.new) (Line.end_line journal.now.history)) }
    ensures err { OnErr result (AppendsPart (K.held sink.old) (K.held sink.new) (Line.end_line journal.now.history)) }
    ensures count { K.faults sink.old ≤ K.faults sink.new }
    ensures cause { OnErr result (Rose (K.faults sink.old) (K.faults sink.new)) }
{
    let tally = counted(journal);
    print_pieces(
        &[
            Piece::Word("end asked "),
            Piece::Number(u64::from(tally.asked)),
            Piece::Word(" answered "),
            Piece::Number(u64::from(tally.answered)),
            Piece::Word(" alive "),
            Piece::Number(u64::from(alive(journal, tally))),
            Piece::Word("\n"),
        ],
        sink,
    )
}
