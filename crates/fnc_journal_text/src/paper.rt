// What is printed of a journal on paper: the line of each entry.

ghost use Rattle.std.specs.Prelude.{◌≡◌, ◌≤◌, ◌<◌, ◌+◌, ℕ, List, [], Option, OnOk, OnErr, length};
ghost use Rattle.fnc_outside.specs.Faults.{Rose};
ghost use Rattle.fnc_outside.specs.Told.{Gains};
ghost use Rattle.fnc_outside.specs.Writes.{AppendsPart};
ghost use Rattle.fnc_journal.specs.Prefix.{prefix};
ghost use Rattle.fnc_journal_text.specs.Paper as Paper;
ghost use Rattle.fnc_journal_text.specs.Spelled.{line_of};

use crate::event::print_event;
use crate::form::Form;
use fnc_journal::{Entry, Journal};
use fnc_outside::{Sink, SinkFailed};
use fnc_printing::{Piece, print_pieces};

/// The first line of a journal's text, without its line feed.
pub fn head_line() -> &'static str
    ensures { result.now ≡ Paper.head_line }
{
    "fencer-journal 3"
}

/// Prints what a journal's text of this form begins with: the first line, or nothing.
pub fn print_head<K: Sink>(form: Form, sink: &mut K) -> Result<(), SinkFailed>
    ensures ok { OnOk result (Gains (K.held sink.old) (K.held sink.new) (Paper.text [] form)) }
    ensures err { OnErr result (AppendsPart (K.held sink.old) (K.held sink.new) (Paper.text [] form)) }
    ensures count { K.faults sink.old ≤ K.faults sink.new }
    ensures cause { OnErr result (Rose (K.faults sink.old) (K.faults sink.new)) }
{
    match form {
        Form::Answers => Ok(()),
        Form::Journal => print_pieces(&[Piece::Word(head_line()), Piece::Word("\n")], sink),
    }
}

/// Prints the spelling of an entry, without the line feed. Where a write fails a part from the front of it was printed.
pub fn print_spelling<K: Sink>(entry: &Entry, sink: &mut K) -> Result<(), SinkFailed>
    ensures ok { OnOk result (Gains (K.held sink.old) (K.held sink.new) (line_of entry.now)) }
    ensures err { OnErr result (AppendsPart (K.held sink.old) (K.held sink.new) (line_of entry.now)) }
    ensures count { K.faults sink.old ≤ K.faults sink.new }
    ensures cause { OnErr result (Rose (K.faults sink.old) (K.faults sink.new)) }
{
    print_pieces(&[Piece::Number(entry.moment)], sink)?;
    print_event(&entry.event, sink)
}

/// Prints the line of an entry. Where a write fails a part from the front of the line was printed.
pub fn print_one<K: Sink>(entry: &Entry, sink: &mut K) -> Result<(), SinkFailed>
    ensures ok { OnOk result (Gains (K.held sink.old) (K.held sink.new) (Paper.printed entry.now)) }
    ensures err { OnErr result (AppendsPart (K.held sink.old) (K.held sink.new) (Paper.printed entry.now)) }
    ensures count { K.faults sink.old ≤ K.faults sink.new }
    ensures cause { OnErr result (Rose (K.faults sink.old) (K.faults sink.new)) }
{
    print_spelling(entry, sink)?;
    print_pieces(&[Piece::Word("\n")], sink)
}

/// Prints the line of the entry of an index, counted from 0 at the oldest. Where the sink holds the
/// lines of the entries before, it then holds this line too.
pub fn print_entry<K: Sink>(journal: &Journal, index: u32, sink: &mut K) -> Result<(), SinkFailed>
    requires { index < length journal.now.history }
    ensures grows { (start : Option (List ℕ))
        → Gains start (K.held sink.old) (Paper.journal_text (prefix index journal.now.history))
        → OnOk result (Gains start (K.held sink.new) (Paper.journal_text (prefix (index + 1) journal.now.history))) }
    ensures ok { OnOk result (Gains (K.held sink.old) (K.held sink.new) (Paper.line_at index journal.now.history)) }
    ensures err { OnErr result (AppendsPart (K.held sink.old) (K.held sink.new)
        (Paper.line_at index journal.now.history)) }
    ensures count { K.faults sink.old ≤ K.faults sink.new }
    ensures cause { OnErr result (Rose (K.faults sink.old) (K.faults sink.new)) }
{
    print_one(journal.entry(index), sink)
}
