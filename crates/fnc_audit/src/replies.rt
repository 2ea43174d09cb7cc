// The answers to the requests for a node, as they are written.

ghost use Rattle.std.specs.Prelude.{◌≡◌, ◌≤◌, ◌<◌, OnOk, OnErr, length};
ghost use Rattle.std.specs.Option.{option_copied};
ghost use Rattle.fnc_outside.specs.Faults.{Rose};
ghost use Rattle.fnc_outside.specs.Told.{Gains};
ghost use Rattle.fnc_outside.specs.Writes.{AppendsPart};
ghost use Rattle.fnc_journal.specs.Found.{request};
ghost use Rattle.fnc_journal.specs.Prefix.{prefix};
ghost use Rattle.fnc_audit.specs.Said as Said;

use fnc_journal::{Answer, Event, Journal, Req, Request};
use fnc_journal_text::{answer_piece, answer_word};
use fnc_outside::{Sink, SinkFailed};
use fnc_printing::{Piece, print_pieces};

/// The request of a number, where its first entry stands before an index.
fn request_before(journal: &Journal, index: u32, req: Req) -> Option<&Request>
    ensures { option_copied result ≡ request req.0 (prefix index journal.now.history) }
{
    match journal.ask_at(req) {
        Some(at) => {
            if at < index {
                journal.request(req)
            } else {
                None
            }
        }
        None => None,
    }
}

/// Prints the line of the answer to a request.
fn print_answer<K: Sink>(
    moment: u64,
    asked: &Request,
    answer: Answer,
    sink: &mut K,
) -> Result<(), SinkFailed>
    ensures ok { OnOk result (Gains (K.held sink.old) (K.held sink.new) (Said.answer_line moment asked.now answer)) }
    ensures err { OnErr result (AppendsPart (K.held sink.old) (K.held sink.new)
        (Said.answer_line moment asked.now answer)) }
    ensures count { K.faults sink.old ≤ K.faults sink.new }
    ensures cause { OnErr result (Rose (K.faults sink.old) (K.faults sink.new)) }
{
    print_pieces(
        &[
            Piece::Number(moment),
            Piece::Word(" "),
            Piece::Name(asked.client.as_str()),
            Piece::Word(" "),
            Piece::Word(asked.kind.word()),
            Piece::Word(" "),
            Piece::Word(answer_word(answer)),
            Piece::Word(" "),
            answer_piece(answer),
            Piece::Word("\n"),
        ],
        sink,
    )
}

/// Prints the line of a reply to a request, where that is for the node.
fn print_reply<K: Sink>(
    node: &str,
    moment: u64,
    answer: Answer,
    asked: Option<&Request>,
    sink: &mut K,
) -> Result<(), SinkFailed>
    ensures ok { OnOk result (Gains (K.held sink.old) (K.held sink.new)
        (Said.reply_line node.now moment answer (option_copied asked.entry))) }
    ensures err { OnErr result (AppendsPart (K.held sink.old) (K.held sink.new)
        (Said.reply_line node.now moment answer (option_copied asked.entry))) }
    ensures count { K.faults sink.old ≤ K.faults sink.new }
    ensures cause { OnErr result (Rose (K.faults sink.old) (K.faults sink.new)) }
{
    match asked {
        Some(asked) => {
            if asked.target.is(node) {
                print_answer(moment, asked, answer, sink)
            } else {
                Ok(())
            }
        }
        None => Ok(()),
    }
}

/// Prints the line of the entry of an index, where it is a reply to a request for the node.
fn print_line<K: Sink>(
    journal: &Journal,
    index: u32,
    node: &str,
    sink: &mut K,
) -> Result<(), SinkFailed>
    requires { index < length journal.now.history }
    ensures ok { OnOk result (Gains (K.held sink.old) (K.held sink.new)
        (Said.history_at node.now index journal.now.history)) }
    ensures err { OnErr result (AppendsPart (K.held sink.old) (K.held sink.new)
        (Said.history_at node.now index journal.now.history)) }
    ensures count { K.faults sink.old ≤ K.faults sink.new }
    ensures cause { OnErr result (Rose (K.faults sink.old) (K.faults sink.new)) }
{
    let entry = journal.entry(index);
    match &entry.event {
        Event::Reply(reply) => {
            let asked = request_before(journal, index, reply.req);
            print_reply(node, entry.moment, reply.answer, asked, sink)
        }
        _ => Ok(()),
    }
}

/// Prints the lines of the replies to the requests for a node, in their order.
pub(crate) fn print_answers<K: Sink>(
    journal: &Journal,
    node: &str,
    sink: &mut K,
) -> Result<(), SinkFailed>
    ensures ok { OnOk result (Gains (K.held sink.old) (K.held sink.new)
        (Said.history_text node.now journal.now.history)) }
    ensures err { OnErr result (AppendsPart (K.held sink.old) (K.held sink.new)
        (Said.history_text node.now journal.now.history)) }
    ensures count { K.faults sink.old ≤ K.faults sink.new }
    ensures cause { OnErr result (Rose (K.faults sink.old) (K.faults sink.new)) }
{
    for index in 0..journal.len() {
        print_line(journal, index, node, sink)?;
    }
    Ok(())
}
