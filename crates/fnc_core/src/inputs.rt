// Inputs that enter: what touches no operation, an operator's word, and the exit of a run.

ghost use Rattle.std.specs.Prelude.{◌≡◌, true, Some, IfSome, is_some};
ghost use Rattle.fnc_journal.specs.declared.event.Event.{Event};
ghost use Rattle.fnc_journal.specs.Found as Found;
ghost use Rattle.fnc_journal.specs.Startable as Startable;
ghost use Rattle.fnc_journal.specs.Lawful.{in_order};
ghost use Rattle.fnc_journal.specs.Known.{LeavesFewNames};
ghost use Rattle.fnc_core.specs.Between.{Between, Rests, Adds, RoomFor, is_quiet, IsBoundedEvent};

use crate::parts::Parts;
use crate::queueing::requeue;
use fnc_journal::{Confirmation, Ended, Entry, Event, Run, Start};

impl Parts {
    /// The start of a run that is alive. None exactly where the run is not alive.
    pub fn alive_start(&self, run: Run) -> Option<Start>
        ensures alive { is_some result ≡ Startable.is_alive run.0 self.now.history }
        ensures started { IfSome result (λ start. Found.started run.0 self.now.history ≡ Some start) }
    {
        let start = *self.journal.start_of(run)?;
        if self.journal.has_exit(run) {
            return None;
        }
        Some(start)
    }

    /// An input comes that touches no operation.
    pub fn enter(&mut self, moment: u64, event: Event)
        requires rests { Rests moment self.old }
        requires quiet { is_quiet event ≡ true }
        requires ordered { in_order event self.old.history ≡ true }
        requires bounded { IsBoundedEvent event }
        requires few_names { LeavesFewNames moment event self.old.history }
        requires room { RoomFor self.old 1 }
        ensures rests { Rests moment self.new }
        ensures adds { Adds moment event self.old self.new }
    {
        self.journal.push(Entry { moment, event });
    }

    /// An operator says that a target is down.
    pub fn confirm(&mut self, moment: u64, word: Confirmation)
        requires rests { Rests moment self.old }
        requires room { RoomFor self.old 1 }
        ensures between { Between moment self.new }
        ensures adds { Adds moment (Event.Confirm word) self.old self.new }
    {
        self.ops.confirm(&self.journal, word.target.as_str());
        self.journal.push(Entry {
            moment,
            event: Event::Confirm(word),
        });
    }

    /// A run that is alive and was started so has ended: its lane has one run less, and its operation may wait for
    /// another try.
    pub fn end_run(&mut self, start: Start, moment: u64, ended: Ended)
        requires rests { Rests moment self.old }
        requires alive { Startable.is_alive ended.run.0 self.old.history ≡ true }
        requires started { Found.started ended.run.0 self.old.history ≡ Some start }
        ensures between { Between moment self.new }
        ensures adds { Adds moment (Event.Exit ended) self.old self.new }
    {
        self.ops.ended(&self.journal, &start, ended, moment);
        self.queue.ended(self.journal.lane(start.reg));
        self.journal.push(Entry {
            moment,
            event: Event::Exit(ended),
        });
        requeue(&self.journal, &self.ops, &mut self.queue, start.req);
    }
}
