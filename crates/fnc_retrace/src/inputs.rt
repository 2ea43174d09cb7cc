// An input enters at the last moment, by what its entry says. Where the state machine would not write it, nothing enters.

ghost use Rattle.std.specs.Prelude.{◌≡◌, ◌≤◌, true, IsTrue};
ghost use Rattle.fnc_journal.specs.EntryBounds.{is_event};
ghost use Rattle.fnc_journal.specs.Bounds.{IsBounded};
ghost use Rattle.fnc_journal.specs.Known.{LeavesFewNames};
ghost use Rattle.fnc_journal.specs.Lawful.{in_order, may_ask};
ghost use Rattle.fnc_core.specs.Between.{IsBoundedEvent};
ghost use Rattle.fnc_core.specs.Cored.{Enters, HasRoom, Sound, event_of};
ghost use Rattle.fnc_retrace.specs.Agreeing.{GoesOn};

use crate::follower::Follower;
use fnc_core::{Ask, Change, Core};
use fnc_journal::limits::DAY;
use fnc_journal::{
    Boxed, Confirmation, Described, Ended, Entry, Event, LevelCleared, LevelSet, Refusal, Reg,
    Registration, Request,
};
use fnc_journal_reader::is_within;

/// Something changes at the last moment, where there is room for its entry.
fn note(core: &mut Core, change: Change)
    requires room { HasRoom core.old 1 }
    requires ordered { in_order (event_of core.old.history change) core.old.history ≡ true }
    requires bounded { IsBoundedEvent (event_of core.old.history change) }
    requires few_names { LeavesFewNames core.old.last (event_of core.old.history change) core.old.history }
    ensures { Enters core.old core.new core.old.last (event_of core.old.history change) 1 }
{
    let moment = core.last();
    let _entered = core.note(moment, change);
}

impl Follower {
    /// An input enters at the last moment. One that holds texts enters by `again`, its entry once more.
    pub fn enter(&mut self, event: &Event, again: Option<Entry>)
        ensures { GoesOn self.old.history self.new.history }
    {
        match event {
            Event::Exit(ended) => self.end(*ended),
            Event::Pass => self.pass(),
            Event::Refused(refusal) => self.refuse(*refusal),
            Event::Gone { reg } => self.take_out(*reg),
            _ => self.enter_again(again),
        }
    }

    /// A run ends.
    fn end(&mut self, ended: Ended)
        ensures { GoesOn self.old.history self.new.history }
    {
        let moment = self.core.last();
        let _ended = self.core.exit(moment, ended.run, ended.exit, ended.listed);
    }

    /// Only time passes.
    fn pass(&mut self)
        ensures { GoesOn self.old.history self.new.history }
    {
        let moment = self.core.last();
        let _passed = self.core.pass(moment);
    }

    /// A line is refused.
    fn refuse(&mut self, refusal: Refusal)
        ensures { GoesOn self.old.history self.new.history }
    {
        let moment = self.core.last();
        let _refused = self.core.refuse(moment, refusal.line, refusal.cause);
    }

    /// The device of a registration is removed, where there is room for the entry.
    fn take_out(&mut self, reg: Reg)
        ensures { GoesOn self.old.history self.new.history }
    {
        if self.core.room(1).is_err() {
            return;
        }
        self.remove(reg);
    }

    /// The device of a registration is removed.
    fn remove(&mut self, reg: Reg)
        requires sound { Sound self.old }
        requires room { HasRoom self.old 1 }
        ensures { GoesOn self.old.history self.new.history }
    {
        let Some(registration) = self.core.journal().registration(reg) else {
            return;
        };
        let Ok(current) = self.config.remove(registration.name.as_str()) else {
            return;
        };
        note(&mut self.core, Change::Gone(current));
    }

    /// What holds texts enters, where it is within its bounds and there is room for its entry.
    fn enter_again(&mut self, again: Option<Entry>)
        ensures { GoesOn self.old.history self.new.history }
    {
        let Some(entry) = again else {
            return;
        };
        if !is_within(&entry) || self.core.room(1).is_err() {
            return;
        }
        self.change(entry.event);
    }

    /// What holds texts enters.
    fn change(&mut self, event: Event)
        requires sound { Sound self.old }
        requires room { HasRoom self.old 1 }
        requires within { IsTrue (is_event event) }
        ensures { GoesOn self.old.history self.new.history }
    {
        match event {
            Event::Device(device) => self.register(device.registration),
            Event::Level(level) => self.set_level(level),
            Event::LevelGone(level) => self.clear_level(level),
            Event::Agent(described) => self.describe(described),
            Event::Ask(request) => self.ask(request.into_inner()),
            Event::Confirm(word) => self.confirm(word),
            _ => {}
        }
    }

    /// A device is registered.
    fn register(&mut self, registration: Boxed<Registration>)
        requires sound { Sound self.old }
        requires room { HasRoom self.old 1 }
        requires bounded { IsBounded registration.definition }
        ensures { GoesOn self.old.history self.new.history }
    {
        let reg = self.core.next_reg();
        let Ok(()) = self
            .config
            .register(self.alloc, &registration.get().name, reg)
        else {
            return;
        };
        note(&mut self.core, Change::Device(registration));
    }

    /// A level of a target stands.
    fn set_level(&mut self, level: LevelSet)
        requires sound { Sound self.old }
        requires room { HasRoom self.old 1 }
        ensures { GoesOn self.old.history self.new.history }
    {
        let at = self.core.journal().len();
        let index = u64::from(level.index);
        let Ok(()) = self
            .config
            .set_level(self.alloc, &level.target, index, &level.devices, at)
        else {
            return;
        };
        note(&mut self.core, Change::Level(level));
    }

    /// A level of a target no longer stands.
    fn clear_level(&mut self, level: LevelCleared)
        requires sound { Sound self.old }
        requires room { HasRoom self.old 1 }
        ensures { GoesOn self.old.history self.new.history }
    {
        let Ok(()) = self
            .config
            .clear_level(&level.target, u64::from(level.index))
        else {
            return;
        };
        note(&mut self.core, Change::LevelGone(level));
    }

    /// An agent is described.
    fn describe(&mut self, described: Described)
        requires sound { Sound self.old }
        requires room { HasRoom self.old 1 }
        ensures { GoesOn self.old.history self.new.history }
    {
        let at = self.core.journal().len();
        let Ok(()) = self.config.set_agent(self.alloc, &described.name, at) else {
            return;
        };
        note(&mut self.core, Change::Agent(described));
    }

    /// An operator says that a target is down.
    fn confirm(&mut self, word: Confirmation)
        requires sound { Sound self.old }
        requires room { HasRoom self.old 1 }
        ensures { GoesOn self.old.history self.new.history }
    {
        note(&mut self.core, Change::Confirm(word));
    }

    /// A client asks, where a client may ask so.
    fn ask(&mut self, request: Request)
        ensures { GoesOn self.old.history self.new.history }
    {
        if !request.kind.may_be_asked() || request.total == 0 || request.total > DAY {
            return;
        }
        let Request {
            client,
            kind,
            target,
            total,
            coin,
            ..
        } = request;
        self.ask_for(Ask {
            client,
            kind,
            target,
            total,
            coin,
        });
    }

    /// A client asks, with the plan of the last moment.
    fn ask_for(&mut self, ask: Ask)
        requires kind { may_ask ask.kind ≡ true }
        requires some_time { 1 ≤ ask.total }
        requires most_time { ask.total ≤ DAY }
        ensures { GoesOn self.old.history self.new.history }
    {
        let moment = self.core.last();
        let Ok(plan) = self.config.plan(
            self.alloc,
            self.core.journal(),
            ask.target.as_str(),
            ask.kind,
            moment,
        )
        else {
            return;
        };
        let _asked = self.core.ask(self.alloc, moment, ask, plan);
    }
}
