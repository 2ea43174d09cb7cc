// The desk: one line in, one input entry of the journal.

ghost use Rattle.std.specs.Prelude.{◌≡◌, ◌≤◌, ◌↔◌, ◌-◌, ◌^◌, ℕ, [], true, length, min};
ghost use Rattle.std.specs.Prelude.{IsOk, IfOk, IfErr, OnOk, OnErr, IsNone, IfNone, IfSome, None};
ghost use Rattle.fnc_journal.specs.Startable.{first, is_alive};
ghost use Rattle.fnc_outside.specs.Events.{Happening};
ghost use Rattle.fnc_command.specs.declared.command.Mode.{Mode};
ghost use Rattle.fnc_core.specs.Cored.{Advances, Enters, IsIdle, Sound, Starts};
ghost use Rattle.fnc_desk.specs.Called.{exit_event};
ghost use Rattle.fnc_desk.specs.Entered.{TakesLine, LacksRoom};
ghost use Rattle.fnc_desk.specs.Inputs.{inputs};
ghost use Rattle.fnc_desk.specs.Starting.{StartsWith, WantsStart};
ghost use Rattle.fnc_desk.specs.declared.entering.Given.{Given};

use crate::entering::Given;
use crate::fencer::Fencer;
use fnc_command::Mode;
use fnc_core::{Started, UnknownRun};
use fnc_jobs::Job;
use fnc_journal::limits::{GREATEST_JOURNAL, GREATEST_MOMENT, LEAST_JOURNAL, LONGEST_LINE};
use fnc_journal::{Cause, Exit, Full, Journal, NoMemory, Run};
use fnc_outside::LineBuf;
use std::alloc::Global;
use std::marker::Model;

/// From lines to events. Contracts see the core, which is its journal, the last moment and the journal's limit; and the
/// mode of its lines.
#[derive(Drop)]
pub struct Desk {
    fencer: Fencer,
    output: LineBuf,
    mode: Mode,
    lines: u32,
}

impl Model for Desk {
    ghost use Rattle.std.specs.Prelude.{◌≡◌, ◌-◌, ◌^◌, min};
    ghost use Rattle.fnc_journal.specs.declared.limits.TheConstants.{LONGEST_LINE};
    ghost use Rattle.fnc_desk.specs.Desked.{Desked};
    ghost use Rattle.fnc_desk.specs.Inputs.{inputs};

    ghost Value = { Desked };

    ghost view = { λ d. record { core = d.fencer; mode = d.mode } };

    ghost invariant = { λ d. (d.lines ≡ min (inputs d.mode d.fencer.history) (2 ^ 32 - 1))
        × (d.output.size ≡ LONGEST_LINE) };
}

impl Desk {
    /// A desk with an empty journal that may have `limit` entries, for lines of a mode.
    pub fn with_limit(alloc: Global, limit: u32, mode: Mode) -> Result<Desk, NoMemory>
        requires least { LEAST_JOURNAL ≤ limit }
        requires most { limit ≤ GREATEST_JOURNAL }
        ensures history { IfOk result (λ d. d.core.history ≡ []) }
        ensures last { IfOk result (λ d. d.core.last ≡ 0) }
        ensures limit { IfOk result (λ d. d.core.limit ≡ limit) }
        ensures mode { IfOk result (λ d. d.mode ≡ mode) }
    {
        Ok(Desk {
            fencer: Fencer::with_limit(alloc, limit)?,
            output: LineBuf::with_size(alloc, LONGEST_LINE as u32)?,
            mode,
            lines: 0,
        })
    }

    /// The journal.
    pub fn journal(&self) -> &Journal
        ensures history { result.now.history ≡ self.now.core.history }
        ensures limit { result.now.limit ≡ self.now.core.limit }
        ensures sound { Sound self.now.core }
    {
        self.fencer.journal()
    }

    /// The journal, at the end of a session.
    pub fn into_journal(self) -> Journal
        ensures history { result.history ≡ self.core.history }
        ensures limit { result.limit ≡ self.core.limit }
        ensures sound { Sound self.core }
    {
        let Desk { fencer, .. } = self;
        fencer.into_journal()
    }

    /// The last moment, in milliseconds.
    pub fn last(&self) -> u64
        ensures value { result ≡ self.now.core.last }
        ensures early { result ≤ GREATEST_MOMENT }
    {
        self.fencer.last()
    }

    /// Whether no operation is open and no run is alive.
    pub fn idle(&self) -> bool
        ensures { (result ≡ true) ↔ IsIdle self.now.core }
    {
        self.fencer.idle()
    }

    /// How many lines were entered, which stands still at the greatest number.
    pub fn lines(&self) -> u32
        ensures { result ≡ min (inputs self.now.mode self.now.core.history) (2 ^ 32 - 1) }
    {
        self.lines
    }

    /// Lets the moment, in milliseconds, advance, and gives the replies that are due at it.
    pub fn advance(&mut self, moment: u64)
        requires later { self.old.core.last ≤ moment }
        requires early { moment ≤ GREATEST_MOMENT }
        ensures advances { Advances self.old.core self.new.core moment }
        ensures mode { self.new.mode ≡ self.old.mode }
    {
        self.fencer.advance(moment);
    }

    /// Enters a line: it gives one input entry, and the replies that this makes due. Where there is no room for one
    /// entry, only the moment advances, and the line is not counted; only the exit of a run that is alive needs none.
    /// In mode Live the line stands at `moment`, in milliseconds, and its request has the coin; in mode Timed neither is
    /// used.
    pub fn enter(&mut self, line: &[u8], moment: u64, coin: u64) -> Result<(), Full>
        requires short { length line.now ≤ LONGEST_LINE }
        requires early { moment ≤ GREATEST_MOMENT }
        ensures ok { OnOk result (TakesLine self.old.mode (record { moment = moment; coin = coin })
            (Happening.Line line.now) self.old.core self.new.core) }
        ensures full { IfErr result (LacksRoom self.old.mode (record { moment = moment; coin = coin })
            (Happening.Line line.now) self.old.core self.new.core) }
        ensures mode { self.new.mode ≡ self.old.mode }
    {
        let number = self.lines.saturating_add(1);
        let given = Given { moment, coin };
        self.fencer
            .enter_line(&mut self.output, self.mode, number, line, given)?;
        self.lines = number;
        Ok(())
    }

    /// Enters a line that was too long to be read.
    pub fn enter_long(&mut self) -> Result<(), Full>
        ensures ok { (size : ℕ) (given : Given) → OnOk result (TakesLine self.old.mode given
            (Happening.TooLong size) self.old.core self.new.core) }
        ensures full { (size : ℕ) (given : Given) → IfErr result (LacksRoom self.old.mode given
            (Happening.TooLong size) self.old.core self.new.core) }
        ensures mode { self.new.mode ≡ self.old.mode }
    {
        let number = self.lines.saturating_add(1);
        self.fencer.refuse_line(number, Cause::TooLong)?;
        self.lines = number;
        Ok(())
    }

    /// A run has ended, which no line told. It is refused exactly where the run is not alive; then only the moment
    /// advances.
    pub fn finish(
        &mut self,
        moment: u64,
        run: Run,
        exit: Exit,
        output: &[u8],
    ) -> Result<(), UnknownRun>
        requires live { self.old.mode ≡ Mode.Live }
        requires later { self.old.core.last ≤ moment }
        requires early { moment ≤ GREATEST_MOMENT }
        ensures ok { OnOk result (Enters self.old.core self.new.core moment
            (exit_event run exit output.now self.old.core.history) 0) }
        ensures alive { IsOk result ↔ (is_alive run.0 self.old.core.history ≡ true) }
        ensures err { OnErr result (Advances self.old.core self.new.core moment) }
        ensures mode { self.new.mode ≡ self.old.mode }
    {
        self.fencer.finish(moment, run, exit, output)
    }

    /// Starts the first try that may start at the last moment. None exactly where no try may start.
    pub fn note_start(&mut self) -> Option<Started>
        ensures none { IsNone result ↔ (first self.old.core.history self.old.core.last ≡ None) }
        ensures unchanged { IfNone result (self.new ≡ self.old) }
        ensures some { IfSome result (Starts self.old.core self.new.core) }
        ensures mode { self.new.mode ≡ self.old.mode }
    {
        self.fencer.next_start()
    }

    /// Makes the job of the first try that may start at the last moment, and starts that. None exactly where no try may
    /// start. The job is made before the entry: want of memory, which comes only where a try may start, leaves all as it
    /// is.
    pub fn start(&mut self) -> Result<Option<Job>, NoMemory>
        ensures none { IfOk result (λ job. IsNone job ↔ (first self.old.core.history self.old.core.last ≡ None)) }
        ensures unchanged { IfOk result (λ job. IfNone job (self.new ≡ self.old)) }
        ensures some { IfOk result (λ job. IfSome job (StartsWith self.old.core self.new.core)) }
        ensures no_memory { OnErr result (WantsStart self.old.core self.new.core) }
        ensures mode { self.new.mode ≡ self.old.mode }
    {
        self.fencer.start()
    }
}
