// A journal's text as its lines come.

ghost use Rattle.std.specs.Prelude.{◌≡◌, ◌≤◌, [], IfOk, Ok, Result};
ghost use Rattle.fnc_journal.specs.declared.entry.Entry.{Entry};
ghost use Rattle.fnc_journal.specs.Lawful.{fault};
ghost use Rattle.fnc_judge.specs.Verdicts.{fault_of};
ghost use Rattle.fnc_journal_reader.specs.declared.fault.EntryFault.{EntryFault};
ghost use Rattle.fnc_journal_reader.specs.Reads.{Gives};
ghost use Rattle.fnc_audit.specs.Reading.{Adds, IsStop};
ghost use Rattle.fnc_audit.specs.TextRead.{bad, with_entry, with_line};
ghost use Rattle.fnc_audit.specs.Texted.{read};

use fnc_journal::limits::{GREATEST_JOURNAL, LEAST_JOURNAL};
use fnc_journal::{Entry, Journal, NoMemory, Outcome};
use fnc_journal_reader::{EntryFault, read_entry};
use fnc_journal_text::head_line;
use fnc_judge::Verdict;
use fnc_retrace::Retrace;
use std::alloc::Global;
use std::marker::Model;

/// Which line comes next: the first one of a text, or that of an entry.
#[derive(Clone, Copy, Debug)]
pub(crate) enum Awaited {
    Head,
    Entry,
}

/// A text each line of which was what it should be so far, and the journal that its lines spell. Where it is to be
/// judged, the state machine follows it.
#[derive(Drop)]
pub(crate) struct Text {
    retrace: Retrace,
    awaited: Awaited,
    judged: bool,
}

impl Model for Text {
    ghost use Rattle.std.specs.Prelude.{◌≡◌, ◌≤◌, [], length};
    ghost use Rattle.fnc_journal.specs.declared.limits.TheConstants.{GREATEST_JOURNAL};
    ghost use Rattle.fnc_audit.specs.declared.text.Awaited.{Awaited};
    ghost use Rattle.fnc_audit.specs.Texted.{Texted};

    ghost Value = { Texted };

    ghost view = { λ t. record { awaited = t.awaited; history = t.retrace.history; limit = t.retrace.limit } };

    ghost invariant = { λ t. (length t.retrace.history ≤ t.retrace.limit) × (t.retrace.limit ≤ GREATEST_JOURNAL)
        × (t.awaited ≡ Awaited.Head → t.retrace.history ≡ []) };
}

impl Text {
    /// A text of which no line came yet, which is to be judged or not. Its journal may have `limit` entries.
    pub fn with_limit(alloc: Global, limit: u32, judged: bool) -> Result<Text, NoMemory>
        requires least { LEAST_JOURNAL ≤ limit }
        requires most { limit ≤ GREATEST_JOURNAL }
        ensures awaited { IfOk result (λ t. t.awaited ≡ Awaited.Head) }
        ensures history { IfOk result (λ t. t.history ≡ []) }
        ensures limit { IfOk result (λ t. t.limit ≡ limit) }
    {
        Ok(Text {
            retrace: Retrace::with_limit(alloc, limit)?,
            awaited: Awaited::Head,
            judged,
        })
    }

    /// Whether the first line came.
    pub fn awaited(&self) -> Awaited
        ensures { result ≡ self.now.awaited }
    {
        self.awaited
    }

    /// The journal that the lines spell.
    pub fn journal(&self) -> &Journal
        ensures history { result.now.history ≡ self.now.history }
    {
        self.retrace.journal()
    }

    /// The verdict on the journal.
    pub fn verdict(&self) -> Verdict
        ensures { fault_of result ≡ fault self.now.history }
    {
        self.retrace.verdict()
    }

    /// The outcome of a next line that is not what it should be.
    pub fn bad_line(&self) -> Outcome
        ensures { IsStop result self.now.limit (bad (read self.now)) }
    {
        Outcome::BadEntry {
            line: match self.awaited {
                Awaited::Head => 1,
                Awaited::Entry => self.journal().len() + 2,
            },
        }
    }

    /// Takes the first line. None where it is the first line of a journal's text.
    fn take_head(&mut self, line: &[u8]) -> Option<Outcome>
        requires { self.old.awaited ≡ Awaited.Head }
        ensures adds { Adds result (with_line self.old.limit (read self.old) line.now) self.old self.new }
        ensures limit { self.new.limit ≡ self.old.limit }
    {
        if line != head_line().as_bytes() {
            return Some(self.bad_line());
        }
        self.awaited = Awaited::Entry;
        None
    }

    /// The entry of a line once more, where it is wanted by the state machine that follows.
    fn again(&self, alloc: Global, line: &[u8], entry: &Entry) -> Option<Entry> {
        if self.judged && self.retrace.wants_again(entry) {
            read_entry(alloc, line).ok()
        } else {
            None
        }
    }

    /// Takes an entry, which may come with itself once more. None where there is room for it.
    fn take(&mut self, entry: Entry, again: Option<Entry>) -> Option<Outcome>
        requires { self.old.awaited ≡ Awaited.Entry }
        ensures adds { Adds result (with_entry self.old.limit self.old.history (Ok entry)) self.old self.new }
        ensures limit { self.new.limit ≡ self.old.limit }
    {
        match self.retrace.take(entry, again) {
            Ok(()) => None,
            Err(full) => Some(Outcome::JournalFull(full)),
        }
    }

    /// Takes what a line after the first is read as. None where the reading goes on.
    fn take_read(
        &mut self,
        alloc: Global,
        line: &[u8],
        spelled: Result<Entry, EntryFault>,
    ) -> Option<Outcome>
        requires { self.old.awaited ≡ Awaited.Entry }
        ensures adds { (entry : Result Entry EntryFault) → Gives spelled entry
            → Adds result (with_entry self.old.limit self.old.history entry) self.old self.new }
        ensures limit { self.new.limit ≡ self.old.limit }
    {
        match spelled {
            Ok(entry) => {
                let again = self.again(alloc, line, &entry);
                self.take(entry, again)
            }
            Err(EntryFault::Malformed) => Some(self.bad_line()),
            Err(EntryFault::NoMemory) => Some(Outcome::NoMemory),
        }
    }

    /// Takes a line. None where it is the first line of a text in first place, or later the line of an entry for which
    /// there is room.
    pub fn take_line(&mut self, alloc: Global, line: &[u8]) -> Option<Outcome>
        ensures adds { Adds result (with_line self.old.limit (read self.old) line.now) self.old self.new }
        ensures limit { self.new.limit ≡ self.old.limit }
    {
        match self.awaited {
            Awaited::Head => self.take_head(line),
            Awaited::Entry => self.take_read(alloc, line, read_entry(alloc, line)),
        }
    }
}
