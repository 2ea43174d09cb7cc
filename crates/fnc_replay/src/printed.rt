// What a session writes of its journal, in its form.

ghost use Rattle.std.specs.Prelude.{◌≡◌, ◌≤◌, ℕ, List, Option, OnOk, OnErr, length};
ghost use Rattle.fnc_outside.specs.Faults.{Rose};
ghost use Rattle.fnc_outside.specs.Told.{Gains};
ghost use Rattle.fnc_outside.specs.Writes.{AppendsPart};
ghost use Rattle.fnc_journal.specs.Lawful.{Lawful};
ghost use Rattle.fnc_journal.specs.Prefix.{prefix};
ghost use Rattle.fnc_journal_text.specs.declared.form.Form.TheVariants as form;
ghost use Rattle.fnc_journal_text.specs.Paper.{text};
ghost use Rattle.fnc_replay.specs.Session.{last_line};

use fnc_desk::{print_end, print_from};
use fnc_journal::Journal;
use fnc_journal_text::{Form, print_entry};
use fnc_outside::{Sink, SinkFailed};

/// Writes the lines of the entries from an index on, each entry with a line of its own.
fn print_entries<K: Sink>(journal: &Journal, from: u32, sink: &mut K) -> Result<(), SinkFailed>
    requires { from ≤ length journal.now.history }
    ensures ok { (start : Option (List ℕ))
        → Gains start (K.held sink.old) (text (prefix from journal.now.history) form.Journal)
        → OnOk result (Gains start (K.held sink.new) (text journal.now.history form.Journal)) }
    ensures err { (start : Option (List ℕ))
        → Gains start (K.held sink.old) (text (prefix from journal.now.history) form.Journal)
        → OnErr result (AppendsPart start (K.held sink.new) (text journal.now.history form.Journal)) }
    ensures count { K.faults sink.old ≤ K.faults sink.new }
    ensures cause { OnErr result (Rose (K.faults sink.old) (K.faults sink.new)) }
{
    for index in from..journal.len() {
        print_entry(journal, index, sink)?;
    }
    Ok(())
}

/// Writes what the text of a journal in this form has of the entries from an index on. Where the sink holds
/// the text of the entries before, it then holds that of the whole journal, or a part from the front of it
/// where a write failed.
pub(crate) fn print_more<K: Sink>(
    form: Form,
    journal: &Journal,
    from: u32,
    sink: &mut K,
) -> Result<(), SinkFailed>
    requires lawful { Lawful journal.now.history }
    requires within { from ≤ length journal.now.history }
    ensures ok { (start : Option (List ℕ))
        → Gains start (K.held sink.old) (text (prefix from journal.now.history) form)
        → OnOk result (Gains start (K.held sink.new) (text journal.now.history form)) }
    ensures err { (start : Option (List ℕ))
        → Gains start (K.held sink.old) (text (prefix from journal.now.history) form)
        → OnErr result (AppendsPart start (K.held sink.new) (text journal.now.history form)) }
    ensures count { K.faults sink.old ≤ K.faults sink.new }
    ensures cause { OnErr result (Rose (K.faults sink.old) (K.faults sink.new)) }
{
    match form {
        Form::Answers => print_from(journal, from, sink),
        Form::Journal => print_entries(journal, from, sink),
    }
}

/// Writes what follows the text of a journal in this form: the end line after the answers.
pub(crate) fn print_last<K: Sink>(
    form: Form,
    journal: &Journal,
    sink: &mut K,
) -> Result<(), SinkFailed>
    requires { Lawful journal.now.history }
    ensures ok { OnOk result (Gains (K.held sink.old) (K.held sink.new) (last_line form journal.now.history)) }
    ensures err { OnErr result (AppendsPart (K.held sink.old) (K.held sink.new)
        (last_line form journal.now.history)) }
    ensures count { K.faults sink.old ≤ K.faults sink.new }
    ensures cause { OnErr result (Rose (K.faults sink.old) (K.faults sink.new)) }
{
    match form {
        Form::Answers => print_end(journal, sink),
        Form::Journal => Ok(()),
    }
}
