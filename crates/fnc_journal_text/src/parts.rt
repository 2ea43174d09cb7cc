// Lines in parts: pieces, and lists between them.

ghost use Rattle.std.specs.Prelude.{◌≤◌, OnOk, OnErr};
ghost use Rattle.fnc_outside.specs.Faults.{Rose};
ghost use Rattle.fnc_outside.specs.Told.{Gains};
ghost use Rattle.fnc_outside.specs.Writes.{AppendsPart};
ghost use Rattle.fnc_journal_text.specs.Parts.{part_text, parts_text};
ghost use Rattle.fnc_journal_text.specs.Spelled.{allowed_text};

use crate::lists::{print_delays, print_map, print_names, print_own, print_parameters};
use crate::words::{actions_pieces, cap_piece, scope_pieces, text_piece};
use fnc_journal::{Actions, Allowed, Delay, Pair, Parameter, Scope, Text};
use fnc_outside::{Sink, SinkFailed};
use fnc_printing::{Piece, print_piece, print_pieces};

/// A part of a line: a piece, a value that is written in several, or a list with what separates its
/// items.
#[derive(Clone, Copy)]
pub(crate) enum Part<'a> {
    Word(&'a str),
    Number(u64),
    Name(&'a str),
    Signed(i32),
    Optional(&'a Option<Text>),
    Actions(Actions),
    Cap(Option<u32>),
    Scope(Scope),
    Allowed(&'a Allowed),
    Names(&'a [Text]),
    Map(&'a [Pair]),
    Delays(&'a [Delay]),
    Parameters(&'a [Parameter]),
    Own(&'a [Pair]),
}

/// Writes what an action is allowed.
fn print_allowed<K: Sink>(allowed: &Allowed, sink: &mut K) -> Result<(), SinkFailed>
    ensures ok { OnOk result (Gains (K.held sink.old) (K.held sink.new) (allowed_text allowed.now)) }
    ensures err { OnErr result (AppendsPart (K.held sink.old) (K.held sink.new) (allowed_text allowed.now)) }
    ensures count { K.faults sink.old ≤ K.faults sink.new }
    ensures cause { OnErr result (Rose (K.faults sink.old) (K.faults sink.new)) }
{
    print_pieces(
        &[
            Piece::Name(allowed.word.as_str()),
            Piece::Word("/"),
            Piece::Number(allowed.time),
            Piece::Word("/"),
            Piece::Number(u64::from(allowed.tries)),
        ],
        sink,
    )
}

/// Writes a part.
fn print_part<K: Sink>(part: &Part<'_>, sink: &mut K) -> Result<(), SinkFailed>
    ensures ok { OnOk result (Gains (K.held sink.old) (K.held sink.new) (part_text part.now)) }
    ensures err { OnErr result (AppendsPart (K.held sink.old) (K.held sink.new) (part_text part.now)) }
    ensures count { K.faults sink.old ≤ K.faults sink.new }
    ensures cause { OnErr result (Rose (K.faults sink.old) (K.faults sink.new)) }
{
    match part {
        Part::Word(word) => print_piece(&Piece::Word(word), sink),
        Part::Number(number) => print_piece(&Piece::Number(*number), sink),
        Part::Name(name) => print_piece(&Piece::Name(name), sink),
        Part::Signed(number) => print_piece(&Piece::Signed(*number), sink),
        Part::Optional(text) => print_piece(&text_piece(text), sink),
        Part::Actions(actions) => print_pieces(&actions_pieces(*actions), sink),
        Part::Cap(cap) => print_piece(&cap_piece(*cap), sink),
        Part::Scope(scope) => print_pieces(&scope_pieces(*scope), sink),
        Part::Allowed(allowed) => print_allowed(allowed, sink),
        Part::Names(names) => print_names(names, sink),
        Part::Map(pairs) => print_map(pairs, sink),
        Part::Delays(delays) => print_delays(delays, sink),
        Part::Parameters(parameters) => print_parameters(parameters, sink),
        Part::Own(options) => print_own(options, sink),
    }
}

/// Writes parts one after another, and stops at a write that fails.
pub(crate) fn print_parts<K: Sink>(parts: &[Part<'_>], sink: &mut K) -> Result<(), SinkFailed>
    ensures ok { OnOk result (Gains (K.held sink.old) (K.held sink.new) (parts_text parts.now)) }
    ensures err { OnErr result (AppendsPart (K.held sink.old) (K.held sink.new) (parts_text parts.now)) }
    ensures count { K.faults sink.old ≤ K.faults sink.new }
    ensures cause { OnErr result (Rose (K.faults sink.old) (K.faults sink.new)) }
{
    for part in parts {
        print_part(part, sink)?;
    }
    Ok(())
}
