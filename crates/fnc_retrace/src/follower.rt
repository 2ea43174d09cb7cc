// The state machine with its configuration, which follows a journal that is read.

ghost use Rattle.std.specs.Prelude.{◌≡◌, ◌≤◌, ◌<◌, ◌+◌, ◌^◌, [], ◌∷◌, length, IfOk, IsTrue, Some};
ghost use Rattle.fnc_journal.specs.Found.{entry_at};
ghost use Rattle.fnc_journal.specs.History.{History};
ghost use Rattle.fnc_journal.specs.Lawful.{Lawful};
ghost use Rattle.fnc_retrace.specs.Agreeing.{Agrees, GoesOn};

use crate::same::Same;
use fnc_config::Config;
use fnc_core::Core;
use fnc_journal::limits::{GREATEST_JOURNAL, GREATEST_MOMENT, LEAST_JOURNAL};
use fnc_journal::{Entry, Event, NoMemory};
use std::alloc::Global;
use std::marker::Model;

/// The core, with what its journal configures. Contracts see the core.
#[derive(Drop)]
pub(crate) struct Follower {
    pub core: Core,
    pub config: Config,
    pub alloc: Global,
}

impl Model for Follower {
    ghost use Rattle.std.specs.Prelude.{◌≡◌};
    ghost use Rattle.fnc_config.specs.Configured.{configured};
    ghost use Rattle.fnc_core.specs.Cored.{Cored};

    ghost Value = { Cored };

    ghost view = { λ f. f.core };

    ghost invariant = { λ f. f.config ≡ configured f.core.history };
}

impl Follower {
    /// A follower with an empty journal that may have `limit` entries.
    pub fn with_limit(alloc: Global, limit: u32) -> Result<Follower, NoMemory>
        requires least { LEAST_JOURNAL ≤ limit }
        requires most { limit ≤ GREATEST_JOURNAL }
        ensures history { IfOk result (λ f. f.history ≡ []) }
    {
        Ok(Follower {
            core: Core::with_limit(alloc, limit)?,
            config: Config::new(alloc),
            alloc,
        })
    }

    /// How many entries its journal has.
    pub fn len(&self) -> u32
        ensures { result ≡ length self.now.history }
    {
        self.core.journal().len()
    }

    /// Whether its journal has this entry at an index.
    fn has(&self, at: u32, entry: &Entry) -> bool
        ensures same { IsTrue result → entry_at at self.now.history ≡ Some entry.now }
        ensures lawful { Lawful self.now.history }
    {
        match self.core.journal().get(at) {
            Some(own) => own.is_same(entry),
            None => false,
        }
    }

    /// How many first entries its journal and one that is read have in common, where the entry is read next: `agreed` of
    /// those that were `read`, or one more. `again` is the same entry once more, where it holds texts.
    pub fn agreed_with(
        &mut self,
        agreed: u32,
        read: u32,
        entry: &Entry,
        again: Option<Entry>,
    ) -> u32
        requires { read + 1 < 2 ^ 32 }
        ensures { (h : History) → length h ≡ read → Agrees agreed h self.old.history
            → Agrees result (entry.now ∷ h) self.new.history }
    {
        if agreed < read {
            return agreed;
        }
        if self.writes(agreed, entry, again) {
            read + 1
        } else {
            agreed
        }
    }

    /// Whether its journal has this entry at an index, once it has gone on by it.
    fn writes(&mut self, at: u32, entry: &Entry, again: Option<Entry>) -> bool
        ensures goes_on { GoesOn self.old.history self.new.history }
        ensures same { IsTrue result → entry_at at self.new.history ≡ Some entry.now }
        ensures lawful { Lawful self.new.history }
    {
        self.reach(at, entry, again);
        self.has(at, entry)
    }

    /// Goes on by an entry, where the journal has none at an index.
    fn reach(&mut self, at: u32, entry: &Entry, again: Option<Entry>)
        ensures { GoesOn self.old.history self.new.history }
    {
        if at < self.len() {
            return;
        }
        self.go_on(entry, again);
    }

    /// Goes on by an entry: a start is made, a reply is given by the time, an input comes.
    fn go_on(&mut self, entry: &Entry, again: Option<Entry>)
        ensures { GoesOn self.old.history self.new.history }
    {
        match &entry.event {
            Event::Start(_) => self.start(),
            Event::Reply(_) => self.advance(entry.moment),
            _ => self.come(entry, again),
        }
    }

    /// Starts the first try that may start.
    fn start(&mut self)
        ensures { GoesOn self.old.history self.new.history }
    {
        let _started = self.core.next_start();
    }

    /// Lets the moment, in milliseconds, advance, unless it is past or later than any.
    fn advance(&mut self, moment: u64)
        ensures { GoesOn self.old.history self.new.history }
    {
        if moment < self.core.last() || moment > GREATEST_MOMENT {
            return;
        }
        self.core.advance(moment);
    }

    /// An input comes at its moment, unless a reply comes before it.
    fn come(&mut self, entry: &Entry, again: Option<Entry>)
        ensures { GoesOn self.old.history self.new.history }
    {
        let before = self.len();
        self.advance(entry.moment);
        self.come_unless(before, &entry.event, again);
    }

    /// An input comes at the last moment, unless there are more entries than these.
    fn come_unless(&mut self, before: u32, event: &Event, again: Option<Entry>)
        ensures { GoesOn self.old.history self.new.history }
    {
        if self.len() != before {
            return;
        }
        self.enter(event, again);
    }
}
