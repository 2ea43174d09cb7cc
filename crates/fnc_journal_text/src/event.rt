// The words of an event, as they are printed.

ghost use Rattle.std.specs.Prelude.{◌≤◌, OnOk, OnErr};
ghost use Rattle.fnc_outside.specs.Faults.{Rose};
ghost use Rattle.fnc_outside.specs.Told.{Gains};
ghost use Rattle.fnc_outside.specs.Writes.{AppendsPart};
ghost use Rattle.fnc_journal_text.specs.Spelled.{agent_words, ask_words, confirm_words, exit_words, gone_words};
ghost use Rattle.fnc_journal_text.specs.Spelled.{level_gone_words, level_words, refused_words, reply_words};
ghost use Rattle.fnc_journal_text.specs.Spelled.{spaced, start_words, words_of};

use crate::definition::print_device;
use crate::parts::{Part, print_parts};
use crate::words::{
    answer_piece, answer_word, exit_piece, flag_word, phase_word, target_text, target_word,
};
use fnc_journal::{
    Confirmation, Described, Ended, Event, LevelCleared, LevelSet, Refusal, Reg, Reply, Request,
    Start,
};
use fnc_outside::{Sink, SinkFailed};
use fnc_printing::{Piece, print_pieces};

/// Prints the words of an event, a space before each.
pub(crate) fn print_event<K: Sink>(event: &Event, sink: &mut K) -> Result<(), SinkFailed>
    ensures ok { OnOk result (Gains (K.held sink.old) (K.held sink.new) (spaced (words_of event.now))) }
    ensures err { OnErr result (AppendsPart (K.held sink.old) (K.held sink.new) (spaced (words_of event.now))) }
    ensures count { K.faults sink.old ≤ K.faults sink.new }
    ensures cause { OnErr result (Rose (K.faults sink.old) (K.faults sink.new)) }
{
    match event {
        Event::Device(device) => print_device(device, sink),
        Event::Gone { reg } => print_gone(*reg, sink),
        Event::Level(level) => print_level(level, sink),
        Event::LevelGone(level) => print_level_gone(level, sink),
        Event::Agent(agent) => print_agent(agent, sink),
        Event::Ask(request) => print_ask(request.get(), sink),
        Event::Exit(ended) => print_exit(ended, sink),
        Event::Pass => print_pieces(&[Piece::Word(" pass")], sink),
        Event::Confirm(confirmation) => print_confirm(confirmation, sink),
        Event::Refused(refusal) => print_refused(refusal, sink),
        Event::Start(start) => print_start(start, sink),
        Event::Reply(reply) => print_reply(reply, sink),
    }
}

/// Prints a registration that is gone.
fn print_gone<K: Sink>(reg: Reg, sink: &mut K) -> Result<(), SinkFailed>
    ensures ok { OnOk result (Gains (K.held sink.old) (K.held sink.new) (spaced (gone_words reg))) }
    ensures err { OnErr result (AppendsPart (K.held sink.old) (K.held sink.new) (spaced (gone_words reg))) }
    ensures count { K.faults sink.old ≤ K.faults sink.new }
    ensures cause { OnErr result (Rose (K.faults sink.old) (K.faults sink.new)) }
{
    print_pieces(
        &[Piece::Word(" gone "), Piece::Number(u64::from(reg.0))],
        sink,
    )
}

/// Prints a request.
fn print_ask<K: Sink>(request: &Request, sink: &mut K) -> Result<(), SinkFailed>
    ensures ok { OnOk result (Gains (K.held sink.old) (K.held sink.new) (spaced (ask_words request.now))) }
    ensures err { OnErr result (AppendsPart (K.held sink.old) (K.held sink.new) (spaced (ask_words request.now))) }
    ensures count { K.faults sink.old ≤ K.faults sink.new }
    ensures cause { OnErr result (Rose (K.faults sink.old) (K.faults sink.new)) }
{
    print_parts(
        &[
            Part::Word(" ask "),
            Part::Number(u64::from(request.req.0)),
            Part::Word(" "),
            Part::Number(u64::from(request.lead.0)),
            Part::Word(" "),
            Part::Name(request.client.as_str()),
            Part::Word(" "),
            Part::Word(request.kind.word()),
            Part::Word(" "),
            Part::Name(request.target.as_str()),
            Part::Word(" "),
            Part::Number(request.total),
            Part::Word(" "),
            Part::Number(request.coin),
            Part::Word(" "),
            Part::Scope(request.scope),
        ],
        sink,
    )
}

/// Prints a level and its devices.
fn print_level<K: Sink>(level: &LevelSet, sink: &mut K) -> Result<(), SinkFailed>
    ensures ok { OnOk result (Gains (K.held sink.old) (K.held sink.new) (spaced (level_words level.now))) }
    ensures err { OnErr result (AppendsPart (K.held sink.old) (K.held sink.new) (spaced (level_words level.now))) }
    ensures count { K.faults sink.old ≤ K.faults sink.new }
    ensures cause { OnErr result (Rose (K.faults sink.old) (K.faults sink.new)) }
{
    print_parts(
        &[
            Part::Word(" level "),
            Part::Number(u64::from(level.index)),
            Part::Word(" "),
            Part::Word(target_word(&level.target)),
            Part::Word(" "),
            Part::Name(target_text(&level.target)),
            Part::Word(" "),
            Part::Names(level.devices.as_slice()),
        ],
        sink,
    )
}

/// Prints a level that is gone.
fn print_level_gone<K: Sink>(level: &LevelCleared, sink: &mut K) -> Result<(), SinkFailed>
    ensures ok { OnOk result (Gains (K.held sink.old) (K.held sink.new) (spaced (level_gone_words level.now))) }
    ensures err { OnErr result (AppendsPart (K.held sink.old) (K.held sink.new) (spaced (level_gone_words level.now))) }
    ensures count { K.faults sink.old ≤ K.faults sink.new }
    ensures cause { OnErr result (Rose (K.faults sink.old) (K.faults sink.new)) }
{
    print_parts(
        &[
            Part::Word(" unlevel "),
            Part::Number(u64::from(level.index)),
            Part::Word(" "),
            Part::Word(target_word(&level.target)),
            Part::Word(" "),
            Part::Name(target_text(&level.target)),
        ],
        sink,
    )
}

/// Prints what is told of an agent.
fn print_agent<K: Sink>(agent: &Described, sink: &mut K) -> Result<(), SinkFailed>
    ensures ok { OnOk result (Gains (K.held sink.old) (K.held sink.new) (spaced (agent_words agent.now))) }
    ensures err { OnErr result (AppendsPart (K.held sink.old) (K.held sink.new) (spaced (agent_words agent.now))) }
    ensures count { K.faults sink.old ≤ K.faults sink.new }
    ensures cause { OnErr result (Rose (K.faults sink.old) (K.faults sink.new)) }
{
    let description = agent.description.get();
    print_parts(
        &[
            Part::Word(" agent "),
            Part::Name(agent.name.as_str()),
            Part::Word(" actions="),
            Part::Actions(description.actions),
            Part::Word(" target="),
            Part::Optional(&description.target),
            Part::Parameters(description.parameters.as_slice()),
        ],
        sink,
    )
}

/// Prints how a run ended.
fn print_exit<K: Sink>(ended: &Ended, sink: &mut K) -> Result<(), SinkFailed>
    ensures ok { OnOk result (Gains (K.held sink.old) (K.held sink.new) (spaced (exit_words ended.now))) }
    ensures err { OnErr result (AppendsPart (K.held sink.old) (K.held sink.new) (spaced (exit_words ended.now))) }
    ensures count { K.faults sink.old ≤ K.faults sink.new }
    ensures cause { OnErr result (Rose (K.faults sink.old) (K.faults sink.new)) }
{
    print_pieces(
        &[
            Piece::Word(" exit "),
            Piece::Number(u64::from(ended.run.0)),
            Piece::Word(" "),
            exit_piece(ended.exit),
            Piece::Word(" "),
            Piece::Word(flag_word(ended.listed)),
        ],
        sink,
    )
}

/// Prints that an operator confirms a node's state.
fn print_confirm<K: Sink>(confirmation: &Confirmation, sink: &mut K) -> Result<(), SinkFailed>
    ensures ok { OnOk result (Gains (K.held sink.old) (K.held sink.new) (spaced (confirm_words confirmation.now))) }
    ensures err { OnErr result (AppendsPart (K.held sink.old) (K.held sink.new)
        (spaced (confirm_words confirmation.now))) }
    ensures count { K.faults sink.old ≤ K.faults sink.new }
    ensures cause { OnErr result (Rose (K.faults sink.old) (K.faults sink.new)) }
{
    print_pieces(
        &[
            Piece::Word(" confirm "),
            Piece::Name(confirmation.client.as_str()),
            Piece::Word(" "),
            Piece::Name(confirmation.target.as_str()),
        ],
        sink,
    )
}

/// Prints why a line was refused.
fn print_refused<K: Sink>(refusal: &Refusal, sink: &mut K) -> Result<(), SinkFailed>
    ensures ok { OnOk result (Gains (K.held sink.old) (K.held sink.new) (spaced (refused_words refusal.now))) }
    ensures err { OnErr result (AppendsPart (K.held sink.old) (K.held sink.new) (spaced (refused_words refusal.now))) }
    ensures count { K.faults sink.old ≤ K.faults sink.new }
    ensures cause { OnErr result (Rose (K.faults sink.old) (K.faults sink.new)) }
{
    print_pieces(
        &[
            Piece::Word(" refused "),
            Piece::Number(u64::from(refusal.line)),
            Piece::Word(" "),
            Piece::Word(refusal.cause.word()),
        ],
        sink,
    )
}

/// Prints the start of a run.
fn print_start<K: Sink>(start: &Start, sink: &mut K) -> Result<(), SinkFailed>
    ensures ok { OnOk result (Gains (K.held sink.old) (K.held sink.new) (spaced (start_words start.now))) }
    ensures err { OnErr result (AppendsPart (K.held sink.old) (K.held sink.new) (spaced (start_words start.now))) }
    ensures count { K.faults sink.old ≤ K.faults sink.new }
    ensures cause { OnErr result (Rose (K.faults sink.old) (K.faults sink.new)) }
{
    print_pieces(
        &[
            Piece::Word(" start "),
            Piece::Number(u64::from(start.run.0)),
            Piece::Word(" "),
            Piece::Number(u64::from(start.req.0)),
            Piece::Word(" "),
            Piece::Word(phase_word(start.slot.phase)),
            Piece::Word(" "),
            Piece::Number(u64::from(start.slot.level)),
            Piece::Word(" "),
            Piece::Number(u64::from(start.slot.place)),
            Piece::Word(" "),
            Piece::Number(u64::from(start.reg.0)),
            Piece::Word(" "),
            Piece::Word(start.kind.word()),
            Piece::Word(" "),
            Piece::Number(u64::from(start.attempt)),
        ],
        sink,
    )
}

/// Prints what a request is answered.
fn print_reply<K: Sink>(reply: &Reply, sink: &mut K) -> Result<(), SinkFailed>
    ensures ok { OnOk result (Gains (K.held sink.old) (K.held sink.new) (spaced (reply_words reply.now))) }
    ensures err { OnErr result (AppendsPart (K.held sink.old) (K.held sink.new) (spaced (reply_words reply.now))) }
    ensures count { K.faults sink.old ≤ K.faults sink.new }
    ensures cause { OnErr result (Rose (K.faults sink.old) (K.faults sink.new)) }
{
    print_pieces(
        &[
            Piece::Word(" reply "),
            Piece::Number(u64::from(reply.req.0)),
            Piece::Word(" "),
            Piece::Word(answer_word(reply.answer)),
            Piece::Word(" "),
            answer_piece(reply.answer),
        ],
        sink,
    )
}
