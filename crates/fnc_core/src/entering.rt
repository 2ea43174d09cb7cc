// What enters the core at its last moment, where there is room for it.

ghost use Rattle.std.specs.Prelude.{◌≡◌, ◌≤◌, ◌+◌, ◌*◌, true, false, Some, None, OnOk, OnErr, IfErr};
ghost use Rattle.fnc_journal.specs.declared.event.Event.{Event};
ghost use Rattle.fnc_journal.specs.Found.{is_device};
ghost use Rattle.fnc_journal.specs.Lawful.{in_order, may_ask};
ghost use Rattle.fnc_journal.specs.Operations.{joined};
ghost use Rattle.fnc_journal.specs.Known.{LeavesFewNames};
ghost use Rattle.fnc_core.specs.Between.{IsBoundedEvent, IsPlanOf, is_quiet, need_of, request_of, tries_with};
ghost use Rattle.fnc_journal.specs.Levels.{is_in_place};
ghost use Rattle.fnc_core.specs.Cored.{Follows, HasRoom, IsRefusal, IsAskRefusal};
ghost use Rattle.fnc_core.specs.Cored.{ask_event, ask_need, event_of, joined_in, lead_in, next_of};

use crate::change::{Ask, Change};
use crate::machine::Core;
use crate::refusal::AskRefusal;
use fnc_journal::limits::DAY;
use fnc_journal::{Event, Plan, Reg, Registered, Req, Scope};
use fnc_ops::allowed_tries;
use std::alloc::Global;

/// The entries that a request wants which begins an operation with so many allowed tries: its own, its reply, and a
/// start and an exit for each of them.
fn need(tries: u32) -> u32
    requires few { tries ≤ 6_400 }
    ensures { result ≡ 2 + 2 * tries }
{
    2 * tries + 2
}

impl Core {
    /// An input that touches no operation.
    #[tactic(auto, using(crate::proofs::Sounds::sound_seen))]
    pub(crate) fn enter(&mut self, event: Event)
        requires quiet { is_quiet event ≡ true }
        requires undevice { is_device event ≡ false }
        requires ordered { in_order event self.old.history ≡ true }
        requires bounded { IsBoundedEvent event }
        requires room { HasRoom self.old 1 }
        ensures { Follows self.old self.new event }
    {
        self.parts.enter(self.last, event);
    }

    /// A change of what the fencer knows, with the replies that it makes due.
    #[tactic(auto, using(crate::proofs::Sounds::sound_seen))]
    pub(crate) fn enter_change(&mut self, change: Change)
        requires ordered { in_order (event_of self.old.history change) self.old.history ≡ true }
        requires bounded { IsBoundedEvent (event_of self.old.history change) }
        requires few_names { LeavesFewNames self.old.last (event_of self.old.history change) self.old.history }
        requires room { HasRoom self.old 1 }
        ensures { Follows self.old self.new (event_of self.old.history change) }
    {
        match change {
            Change::Device(registration) => {
                let reg = Reg(self.next_reg);
                self.parts
                    .enter(self.last, Event::Device(Registered { reg, registration }));
                self.next_reg += 1;
            }
            Change::Gone(reg) => self.enter(Event::Gone { reg }),
            Change::Level(set) => self.enter(Event::Level(set)),
            Change::LevelGone(cleared) => self.enter(Event::LevelGone(cleared)),
            Change::Agent(described) => self.enter(Event::Agent(described)),
            Change::Confirm(word) => {
                self.parts.confirm(self.last, word);
                self.parts.give_replies(self.last);
            }
        }
    }

    /// A request joins an operation that is open, with the replies that it makes due.
    #[tactic(auto, using(crate::proofs::Sounds::sound_seen))]
    fn join(&mut self, alloc: Global, lead: Req, ask: Ask, scope: Scope) -> Result<(), AskRefusal>
        requires ordered { in_order (Event.Ask (request_of (next_of self.old) lead ask scope)) self.old.history ≡ true }
        requires leads { joined_in self.old ask.kind ask.target ≡ Some lead.0 }
        ensures ok { OnOk result
            (Follows self.old self.new (Event.Ask (request_of (next_of self.old) lead ask scope))) }
        ensures room { OnOk result (HasRoom self.old 2) }
        ensures refusal { IfErr result (IsRefusal self.new 2) }
        ensures err { OnErr result (self.new ≡ self.old) }
    {
        let owing = self.owing(2)?;
        self.parts.reserve(self.last, owing + 1)?;
        self.parts
            .join(alloc, self.last, lead, Req(self.next_req), ask, scope)?;
        self.next_req += 1;
        self.parts.give_replies(self.last);
        Ok(())
    }

    /// The allowed tries of all slots of the operation that a request begins.
    fn tries(&self, ask: &Ask, plan: &Plan) -> u32
        requires planned { IsPlanOf self.now.history self.now.last ask.now.kind ask.now.target plan.now }
        ensures tries { result ≡ tries_with self.now.history self.now.last (next_of self.now) ask.now plan.now }
        ensures few { result ≤ 6_400 }
    {
        allowed_tries(&self.parts.journal, ask.kind, plan)
    }

    /// A request begins an operation of its own, with a plan, and with the replies that it makes due.
    #[tactic(auto, using(crate::proofs::Sounds::sound_seen))]
    fn begin(&mut self, alloc: Global, ask: Ask, plan: Plan) -> Result<(), AskRefusal>
        requires ordered { in_order (ask_event (next_of self.old) (next_of self.old) ask plan) self.old.history ≡ true }
        requires leads { joined self.old.history self.old.last ask.kind ask.target ≡ None }
        requires planned { IsPlanOf self.old.history self.old.last ask.kind ask.target plan }
        ensures ok { OnOk result
            (Follows self.old self.new (ask_event (next_of self.old) (next_of self.old) ask plan)) }
        ensures room { OnOk result
            (HasRoom self.old (need_of self.old.history self.old.last (next_of self.old) ask plan)) }
        ensures refusal { IfErr result
            (IsRefusal self.new (need_of self.old.history self.old.last (next_of self.old) ask plan)) }
        ensures err { OnErr result (self.new ≡ self.old) }
    {
        let tries = self.tries(&ask, &plan);
        let need = need(tries);
        let owing = self.owing(need)?;
        self.parts.reserve(self.last, owing + need)?;
        self.parts
            .begin(alloc, self.last, Req(self.next_req), ask, plan, tries)?;
        self.next_req += 1;
        self.parts.give_replies(self.last);
        Ok(())
    }

    /// A request joins the operation that it can join at the last moment, or begins its own with this plan.
    pub(crate) fn take(&mut self, alloc: Global, ask: Ask, plan: Plan) -> Result<(), AskRefusal>
        requires kind { may_ask ask.kind ≡ true }
        requires some_time { 1 ≤ ask.total }
        requires most_time { ask.total ≤ DAY }
        requires in_place { is_in_place plan.scope ask.target self.old.history ≡ true }
        requires planned { IsPlanOf self.old.history self.old.last ask.kind ask.target plan }
        ensures ok { OnOk result (Follows self.old self.new
            (ask_event (next_of self.old) (lead_in self.old.history self.old.last ask (next_of self.old)) ask plan)) }
        ensures room { OnOk result (HasRoom self.old (ask_need self.old ask plan)) }
        ensures refusal { IfErr result (IsAskRefusal self.new ask plan) }
        ensures err { OnErr result (self.new ≡ self.old) }
    {
        match self.joinable(ask.target.as_str(), ask.kind) {
            Some(lead) => self.join(alloc, lead, ask, plan.scope),
            None => self.begin(alloc, ask, plan),
        }
    }
}
