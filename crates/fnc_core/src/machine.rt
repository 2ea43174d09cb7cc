// The core: one event of the fencer after another.

ghost use Rattle.std.specs.Prelude.{◌≡◌, ◌<◌, ◌≤◌, ◌+◌, ◌↔◌, [], true, None, option_map};
ghost use Rattle.std.specs.Prelude.{IsOk, IsNone, IfOk, IfErr, IfNone, IfSome, OnOk, OnErr};
ghost use Rattle.fnc_journal.specs.declared.event.Event.{Event};
ghost use Rattle.fnc_journal.specs.Found.{asks, devices};
ghost use Rattle.fnc_journal.specs.Lawful.{in_order, may_ask};
ghost use Rattle.fnc_journal.specs.Levels.{is_in_place};
ghost use Rattle.fnc_journal.specs.Owed.{owed};
ghost use Rattle.fnc_journal.specs.Startable.{first, is_alive};
ghost use Rattle.fnc_core.specs.Between.{IsBoundedEvent, IsPlanOf};
ghost use Rattle.fnc_core.specs.Cored.{Sound, HasRoom, IsFull, IsIdle, IsAskRefusal, IsStart, event_of, joined_in};
ghost use Rattle.fnc_core.specs.Cored.{Advances, Enters, Asks, Starts};
ghost use Rattle.fnc_journal.specs.Known.{LeavesFewNames};

use crate::change::{Ask, Change, Started};
use crate::parts::Parts;
use crate::refusal::{AskRefusal, UnknownRun};
use fnc_journal::limits::{DAY, GREATEST_JOURNAL, GREATEST_MOMENT, LEAST_JOURNAL};
use fnc_journal::{
    Cause, Ended, Event, Exit, Full, Journal, Kind, NoMemory, Plan, Refusal, Reg, Req, Run,
};
use fnc_ops::Ops;
use fnc_queue::Queue;
use std::alloc::Global;
use std::marker::Model;

/// The state machine of the fencer. Contracts see its journal, the newest entry first, the last moment, and the
/// journal's limit.
#[derive(Drop)]
pub struct Core {
    pub(crate) parts: Parts,
    pub(crate) last: u64,
    pub(crate) next_reg: u32,
    pub(crate) next_req: u32,
    pub(crate) next_run: u32,
}

impl Model for Core {
    ghost use Rattle.fnc_core.specs.Cored.{Cored};
    ghost use Rattle.fnc_core.specs.Holds.{Holds};

    ghost Value = { Cored };

    ghost view = { λ c. record { history = c.parts.history; last = c.last; limit = c.parts.limit } };

    ghost invariant = { λ c. Holds c.last c.parts c.next_reg c.next_req c.next_run };
}

impl Core {
    /// A core with an empty journal that may have `limit` entries, all of whose room is taken here.
    pub fn with_limit(alloc: Global, limit: u32) -> Result<Core, NoMemory>
        requires least { LEAST_JOURNAL ≤ limit }
        requires most { limit ≤ GREATEST_JOURNAL }
        ensures history { IfOk result (λ c. c.history ≡ []) }
        ensures last { IfOk result (λ c. c.last ≡ 0) }
        ensures limit { IfOk result (λ c. c.limit ≡ limit) }
    {
        let journal = Journal::with_limit(alloc, limit)?;
        Ok(Core {
            parts: Parts {
                journal,
                ops: Ops::new(alloc),
                queue: Queue::new(alloc),
            },
            last: 0,
            next_reg: 0,
            next_req: 0,
            next_run: 0,
        })
    }

    /// The last moment, in milliseconds.
    pub fn last(&self) -> u64
        ensures value { result ≡ self.now.last }
        ensures early { result ≤ GREATEST_MOMENT }
    {
        self.last
    }

    /// The journal.
    pub fn journal(&self) -> &Journal
        ensures history { result.now.history ≡ self.now.history }
        ensures limit { result.now.limit ≡ self.now.limit }
        ensures sound { Sound self.now }
    {
        &self.parts.journal
    }

    /// The journal, at the end of a session.
    pub fn into_journal(self) -> Journal
        ensures history { result.history ≡ self.history }
        ensures limit { result.limit ≡ self.limit }
        ensures sound { Sound self }
    {
        let Core { parts, .. } = self;
        let Parts { journal, .. } = parts;
        journal
    }

    /// The number that the next device gets.
    pub fn next_reg(&self) -> Reg
        ensures { result.0 ≡ devices self.now.history }
    {
        Reg(self.next_reg)
    }

    /// The operation that a request for a target and an action would join at the last moment. None where it would
    /// begin its own.
    pub fn joinable(&self, target: &str, kind: Kind) -> Option<Req>
        ensures { option_map (λ r. r.0) result ≡ joined_in self.now kind target.now }
    {
        self.parts.ops.joinable(target, kind)
    }

    /// Whether no operation is open and no run is alive.
    pub fn idle(&self) -> bool
        ensures { (result ≡ true) ↔ IsIdle self.now }
    {
        self.parts.ops.owed() == 0
    }

    /// The entries that are owed for what was accepted, where there is room for so many more beside them.
    pub(crate) fn owing(&self, need: u32) -> Result<u32, Full>
        ensures ok { IfOk result (λ owing. owing ≡ owed self.now.history) }
        ensures room { OnOk result (HasRoom self.now need) }
        ensures full { IfErr result (IsFull self.now need) }
        ensures sound { Sound self.now }
    {
        let full = Full {
            entries: self.parts.journal.len(),
            owed: self.parts.ops.owed(),
            need,
            limit: self.parts.journal.limit(),
        };
        if u64::from(full.entries) + u64::from(full.owed) + u64::from(need)
            <= u64::from(full.limit)
        {
            Ok(full.owed)
        } else {
            Err(full)
        }
    }

    /// Whether there is room for so many entries, beside those that are owed for what was accepted.
    pub fn room(&self, need: u32) -> Result<(), Full>
        ensures ok { OnOk result (HasRoom self.now need) }
        ensures full { IfErr result (IsFull self.now need) }
        ensures sound { Sound self.now }
    {
        self.owing(need)?;
        Ok(())
    }

    /// Lets the moment, in milliseconds, advance, and gives the replies that are due at it: at the last moment none
    /// is.
    #[tactic(auto, using(crate::proofs::Sounds::sound_seen))]
    pub fn advance(&mut self, moment: u64)
        requires later { self.old.last ≤ moment }
        requires early { moment ≤ GREATEST_MOMENT }
        ensures { Advances self.old self.new moment }
    {
        if moment > self.last {
            self.parts.pass_time(self.last, moment);
            self.parts.give_replies(moment);
            self.last = moment;
        }
    }

    /// A moment passes, and nothing comes with it.
    pub fn pass(&mut self, moment: u64) -> Result<(), Full>
        requires later { self.old.last ≤ moment }
        requires early { moment ≤ GREATEST_MOMENT }
        ensures ok { OnOk result (Enters self.old self.new moment Event.Pass 1) }
        ensures full { IfErr result (IsFull self.new 1) }
        ensures err { OnErr result (Advances self.old self.new moment) }
    {
        self.advance(moment);
        self.room(1)?;
        self.enter(Event::Pass);
        Ok(())
    }

    /// Refuses a line, by its number, for a cause.
    pub fn refuse(&mut self, moment: u64, line: u32, cause: Cause) -> Result<(), Full>
        requires later { self.old.last ≤ moment }
        requires early { moment ≤ GREATEST_MOMENT }
        ensures ok { OnOk result
            (Enters self.old self.new moment (Event.Refused (record { line = line; cause = cause })) 1) }
        ensures full { IfErr result (IsFull self.new 1) }
        ensures err { OnErr result (Advances self.old self.new moment) }
    {
        self.advance(moment);
        self.room(1)?;
        self.enter(Event::Refused(Refusal { line, cause }));
        Ok(())
    }

    /// Something of what the fencer knows changes. An operator's word makes its replies due.
    pub fn note(&mut self, moment: u64, change: Change) -> Result<(), Full>
        requires later { self.old.last ≤ moment }
        requires early { moment ≤ GREATEST_MOMENT }
        requires ordered { in_order (event_of self.old.history change) self.old.history ≡ true }
        requires bounded { IsBoundedEvent (event_of self.old.history change) }
        requires few_names { LeavesFewNames moment (event_of self.old.history change) self.old.history }
        ensures ok { OnOk result (Enters self.old self.new moment (event_of self.old.history change) 1) }
        ensures full { IfErr result (IsFull self.new 1) }
        ensures err { OnErr result (Advances self.old self.new moment) }
    {
        self.advance(moment);
        self.room(1)?;
        self.enter_change(change);
        Ok(())
    }

    /// A client asks for an action on a target. The request joins the operation that it can join, or begins its
    /// own with this plan.
    pub fn ask(
        &mut self,
        alloc: Global,
        moment: u64,
        ask: Ask,
        plan: Plan,
    ) -> Result<Req, AskRefusal>
        requires later { self.old.last ≤ moment }
        requires early { moment ≤ GREATEST_MOMENT }
        requires kind { may_ask ask.kind ≡ true }
        requires some_time { 1 ≤ ask.total }
        requires most_time { ask.total ≤ DAY }
        requires in_place { is_in_place plan.scope ask.target self.old.history ≡ true }
        requires planned { IsPlanOf self.old.history moment ask.kind ask.target plan }
        ensures ok { IfOk result (Asks self.old self.new moment ask plan) }
        ensures number { IfOk result (λ req. req.0 ≡ asks self.old.history) }
        ensures refusal { IfErr result (IsAskRefusal self.new ask plan) }
        ensures err { OnErr result (Advances self.old self.new moment) }
    {
        self.advance(moment);
        let req = Req(self.next_req);
        self.take(alloc, ask, plan)?;
        Ok(req)
    }

    /// A run has ended. The refusal comes exactly where the run is not alive. No room is needed: the entries that
    /// an exit needs were owed since its operation was accepted.
    pub fn exit(
        &mut self,
        moment: u64,
        run: Run,
        exit: Exit,
        listed: bool,
    ) -> Result<(), UnknownRun>
        requires later { self.old.last ≤ moment }
        requires early { moment ≤ GREATEST_MOMENT }
        ensures ok { OnOk result
            (Enters self.old self.new moment (Event.Exit (record { run = run; exit = exit; listed = listed })) 0) }
        ensures alive { IsOk result ↔ (is_alive run.0 self.old.history ≡ true) }
        ensures err { OnErr result (Advances self.old self.new moment) }
    {
        self.advance(moment);
        let Some(start) = self.parts.alive_start(run) else {
            return Err(UnknownRun);
        };
        self.parts
            .end_run(start, moment, Ended { run, exit, listed });
        self.parts.give_replies(moment);
        Ok(())
    }

    /// The first try that may start at the last moment, with the number that its run would have. None exactly
    /// where no try may start.
    pub fn due_start(&self) -> Option<Started>
        ensures none { IsNone result ↔ (first self.now.history self.now.last ≡ None) }
        ensures some { IfSome result (IsStart self.now) }
    {
        self.parts.first_start(self.last, Run(self.next_run))
    }

    /// Starts the first try that may start at the last moment. None exactly where no try may start.
    #[tactic(auto, using(crate::proofs::Sounds::sound_seen))]
    pub fn next_start(&mut self) -> Option<Started>
        ensures none { IsNone result ↔ (first self.old.history self.old.last ≡ None) }
        ensures unchanged { IfNone result (self.new ≡ self.old) }
        ensures some { IfSome result (Starts self.old self.new) }
    {
        let started = self.parts.start_next(self.last, Run(self.next_run))?;
        self.next_run += 1;
        Some(started)
    }
}
