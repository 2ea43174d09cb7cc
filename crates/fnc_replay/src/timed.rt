// The desk of a session of lines that say their moments.

ghost use Rattle.std.specs.Prelude.{◌≡◌, ◌≤◌, ◌↔◌, ℕ, [], length, None};
ghost use Rattle.std.specs.Prelude.{IfOk, IfErr, OnOk, IsNone, IfNone, IfSome};
ghost use Rattle.fnc_journal.specs.Startable.{first};
ghost use Rattle.fnc_outside.specs.Events.{Happening};
ghost use Rattle.fnc_core.specs.Cored.{Sound, Starts};
ghost use Rattle.fnc_replay.specs.Timed.{TakesLine, LacksRoom};

use fnc_command::Mode;
use fnc_core::Started;
use fnc_desk::Desk;
use fnc_journal::limits::{GREATEST_JOURNAL, LEAST_JOURNAL, LONGEST_LINE};
use fnc_journal::{Full, Journal, NoMemory};
use std::alloc::Global;
use std::marker::Model;

/// A desk whose lines say their moments. Contracts see the core.
#[derive(Drop)]
pub struct Timed {
    desk: Desk,
}

impl Model for Timed {
    ghost use Rattle.std.specs.Prelude.{◌≡◌};
    ghost use Rattle.fnc_command.specs.declared.command.Mode.{Mode};
    ghost use Rattle.fnc_core.specs.Cored.{Cored};

    ghost Value = { Cored };

    ghost view = { λ t. t.desk.core };

    ghost invariant = { λ t. t.desk.mode ≡ Mode.Timed };
}

impl Timed {
    /// A desk with an empty journal that may have `limit` entries.
    pub fn with_limit(alloc: Global, limit: u32) -> Result<Timed, NoMemory>
        requires least { LEAST_JOURNAL ≤ limit }
        requires most { limit ≤ GREATEST_JOURNAL }
        ensures history { IfOk result (λ d. d.history ≡ []) }
        ensures last { IfOk result (λ d. d.last ≡ 0) }
        ensures limit { IfOk result (λ d. d.limit ≡ limit) }
    {
        Ok(Timed {
            desk: Desk::with_limit(alloc, limit, Mode::Timed)?,
        })
    }

    /// The journal.
    pub fn journal(&self) -> &Journal
        ensures history { result.now.history ≡ self.now.history }
        ensures limit { result.now.limit ≡ self.now.limit }
        ensures sound { Sound self.now }
    {
        self.desk.journal()
    }

    /// The journal, at the end of a session.
    pub fn into_journal(self) -> Journal
        ensures history { result.history ≡ self.history }
        ensures limit { result.limit ≡ self.limit }
        ensures sound { Sound self }
    {
        let Timed { desk } = self;
        desk.into_journal()
    }

    /// Enters a line.
    pub fn enter(&mut self, line: &[u8]) -> Result<(), Full>
        requires short { length line.now ≤ LONGEST_LINE }
        ensures ok { OnOk result (TakesLine (Happening.Line line.now) self.old self.new) }
        ensures full { IfErr result (LacksRoom (Happening.Line line.now) self.old self.new) }
    {
        self.desk.enter(line, 0, 0)
    }

    /// Enters a line that was too long to be read.
    pub fn enter_long(&mut self) -> Result<(), Full>
        ensures ok { (size : ℕ) → OnOk result (TakesLine (Happening.TooLong size) self.old self.new) }
        ensures full { (size : ℕ) → IfErr result (LacksRoom (Happening.TooLong size) self.old self.new) }
    {
        self.desk.enter_long()
    }

    /// Starts the first try that may start at the last moment. None exactly where no try may start.
    pub fn note_start(&mut self) -> Option<Started>
        ensures none { IsNone result ↔ (first self.old.history self.old.last ≡ None) }
        ensures unchanged { IfNone result (self.new ≡ self.old) }
        ensures some { IfSome result (Starts self.old self.new) }
    {
        self.desk.note_start()
    }
}
