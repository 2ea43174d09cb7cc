// The core with the configuration of its journal.

ghost use Rattle.std.specs.Prelude.{◌≡◌, ◌≤◌, ◌↔◌, [], true, None};
ghost use Rattle.std.specs.Prelude.{IsNone, IfOk, IfErr, IfNone, IfSome, OnOk, OnErr};
ghost use Rattle.fnc_journal.specs.declared.event.Event.{Event};
ghost use Rattle.fnc_journal.specs.Startable.{first};
ghost use Rattle.fnc_core.specs.Cored.{Advances, Enters, HasRoom, IsFull, IsIdle, Sound, Starts};
ghost use Rattle.fnc_desk.specs.Starting.{StartsWith, WantsStart};

use fnc_config::Config;
use fnc_core::{Core, Started};
use fnc_jobs::{Job, job_of};
use fnc_journal::limits::{GREATEST_JOURNAL, GREATEST_MOMENT, LEAST_JOURNAL};
use fnc_journal::{Cause, Full, Journal, NoMemory};
use std::alloc::Global;
use std::marker::Model;

/// The core, with what its journal configures. Contracts see the core.
#[derive(Drop)]
pub(crate) struct Fencer {
    pub core: Core,
    pub config: Config,
    pub alloc: Global,
}

impl Model for Fencer {
    ghost use Rattle.std.specs.Prelude.{◌≡◌, IsTrue};
    ghost use Rattle.fnc_journal.specs.EntryBounds.{are_within};
    ghost use Rattle.fnc_config.specs.Configured.{configured};
    ghost use Rattle.fnc_core.specs.Cored.{Cored};

    ghost Value = { Cored };

    ghost view = { λ f. f.core };

    ghost invariant = { λ f. (f.config ≡ configured f.core.history) × IsTrue (are_within f.core.history) };
}

impl Fencer {
    /// A fencer with an empty journal that may have `limit` entries.
    pub fn with_limit(alloc: Global, limit: u32) -> Result<Fencer, NoMemory>
        requires least { LEAST_JOURNAL ≤ limit }
        requires most { limit ≤ GREATEST_JOURNAL }
        ensures history { IfOk result (λ f. f.history ≡ []) }
        ensures last { IfOk result (λ f. f.last ≡ 0) }
        ensures limit { IfOk result (λ f. f.limit ≡ limit) }
    {
        Ok(Fencer {
            core: Core::with_limit(alloc, limit)?,
            config: Config::new(alloc),
            alloc,
        })
    }

    /// The last moment, in milliseconds.
    pub fn last(&self) -> u64
        ensures value { result ≡ self.now.last }
        ensures early { result ≤ GREATEST_MOMENT }
    {
        self.core.last()
    }

    /// The journal.
    pub fn journal(&self) -> &Journal
        ensures history { result.now.history ≡ self.now.history }
        ensures limit { result.now.limit ≡ self.now.limit }
        ensures sound { Sound self.now }
    {
        self.core.journal()
    }

    /// The journal, at the end.
    pub fn into_journal(self) -> Journal
        ensures history { result.history ≡ self.history }
        ensures limit { result.limit ≡ self.limit }
        ensures sound { Sound self }
    {
        let Fencer { core, .. } = self;
        core.into_journal()
    }

    /// Whether no operation is open and no run is alive.
    pub fn idle(&self) -> bool
        ensures { (result ≡ true) ↔ IsIdle self.now }
    {
        self.core.idle()
    }

    /// Whether there is room for one entry more.
    pub fn room(&self) -> Result<(), Full>
        ensures ok { OnOk result (HasRoom self.now 1) }
        ensures full { IfErr result (IsFull self.now 1) }
        ensures sound { Sound self.now }
    {
        self.core.room(1)
    }

    /// Lets the moment advance, and gives the replies that are due at it.
    pub fn advance(&mut self, moment: u64)
        requires later { self.old.last ≤ moment }
        requires early { moment ≤ GREATEST_MOMENT }
        ensures { Advances self.old self.new moment }
    {
        self.core.advance(moment);
    }

    /// Refuses the line of a number at the last moment, for a cause.
    pub fn refuse(&mut self, line: u32, cause: Cause) -> Result<(), Full>
        ensures ok { OnOk result
            (Enters self.old self.new self.old.last (Event.Refused (record { line = line; cause = cause })) 1) }
        ensures full { IfErr result (IsFull self.new 1) }
        ensures err { OnErr result (Advances self.old self.new self.old.last) }
    {
        let moment = self.core.last();
        self.core.refuse(moment, line, cause)
    }

    /// Starts the first try that may start at the last moment. None exactly where no try may start.
    pub fn next_start(&mut self) -> Option<Started>
        ensures none { IsNone result ↔ (first self.old.history self.old.last ≡ None) }
        ensures unchanged { IfNone result (self.new ≡ self.old) }
        ensures some { IfSome result (Starts self.old self.new) }
    {
        self.core.next_start()
    }

    /// Makes the job of the first try that may start at the last moment, and starts that. None exactly where no try may
    /// start. The job is made before the entry: want of memory, which comes only where a try may start, leaves all as it
    /// is.
    pub fn start(&mut self) -> Result<Option<Job>, NoMemory>
        ensures none { IfOk result (λ job. IsNone job ↔ (first self.old.history self.old.last ≡ None)) }
        ensures unchanged { IfOk result (λ job. IfNone job (self.new ≡ self.old)) }
        ensures some { IfOk result (λ job. IfSome job (StartsWith self.old self.new)) }
        ensures no_memory { OnErr result (WantsStart self.old self.new) }
    {
        let Some(started) = self.core.due_start() else {
            return Ok(None);
        };
        let job = job_of(self.alloc, self.core.journal(), &started, self.core.last())?;
        let _started = self.core.next_start();
        Ok(Some(job))
    }
}
