// Requests that enter: each joins an operation or begins its own.

ghost use Rattle.std.specs.Prelude.{◌≡◌, ◌≤◌, ◌+◌, true, option_map, Some, None, IfOk, OnOk, OnErr};
ghost use Rattle.fnc_journal.specs.declared.event.Event.{Event};
ghost use Rattle.fnc_journal.specs.Operations.{joined};
ghost use Rattle.fnc_journal.specs.Owed.{owed};
ghost use Rattle.fnc_journal.specs.Lawful.{in_order};
ghost use Rattle.fnc_core.specs.Between.{Between, Rests, Adds, Stays, RoomFor};
ghost use Rattle.fnc_core.specs.Between.{IsPlanOf, need_of, operation_asked, request_of, tries_with};

use crate::change::Ask;
use crate::parts::Parts;
use crate::queueing::requeue;
use fnc_journal::{Boxed, Entry, Event, NoMemory, Plan, Req, Scope, Text};
use fnc_ops::Operation;
use std::alloc::Global;

/// What a request asks for that begins an operation.
fn operation_of(alloc: Global, moment: u64, req: Req, ask: &Ask) -> Result<Operation, NoMemory>
    ensures { IfOk result (λ o. o ≡ operation_asked moment req ask.now) }
{
    Ok(Operation {
        req,
        target: Text::new(alloc, ask.target.as_str())?,
        kind: ask.kind,
        moment,
        total: ask.total,
        coin: ask.coin,
    })
}

impl Parts {
    /// Takes room in the queue, so that at least so many tries and runs have a place beside those that have one.
    pub fn reserve(&mut self, moment: u64, places: u32) -> Result<(), NoMemory>
        requires rests { Rests moment self.old }
        ensures stays { Stays moment self.old self.new }
        ensures places { OnOk result (places ≤ self.new.queue.spare) }
    {
        self.queue.reserve(places)
    }

    /// A request joins an operation that is open, with a place in the queue for its reply.
    pub fn join(
        &mut self,
        alloc: Global,
        moment: u64,
        lead: Req,
        req: Req,
        ask: Ask,
        scope: Scope,
    ) -> Result<(), NoMemory>
        requires rests { Rests moment self.old }
        requires ordered { in_order (Event.Ask (request_of req lead ask scope)) self.old.history ≡ true }
        requires leads { option_map (λ o. o.req) (joined self.old.history moment ask.kind ask.target) ≡ Some lead.0 }
        requires room { RoomFor self.old 2 }
        requires places { owed self.old.history + 1 ≤ self.old.queue.spare }
        ensures between { OnOk result (Between moment self.new) }
        ensures adds { OnOk result (Adds moment (Event.Ask (request_of req lead ask scope)) self.old self.new) }
        ensures err { OnErr result (Stays moment self.old self.new) }
    {
        let request = Boxed::new(alloc, ask.into_request(req, lead, scope))?;
        self.ops.join(lead, req)?;
        self.journal.push(Entry {
            moment,
            event: Event::Ask(request),
        });
        Ok(())
    }

    /// A request begins an operation of its own, with a plan and with the allowed tries of all its slots, and with a
    /// place in the queue for each entry that is owed then.
    pub fn begin(
        &mut self,
        alloc: Global,
        moment: u64,
        req: Req,
        ask: Ask,
        plan: Plan,
        tries: u32,
    ) -> Result<(), NoMemory>
        requires rests { Rests moment self.old }
        requires ordered { in_order (Event.Ask (request_of req req ask plan.scope)) self.old.history ≡ true }
        requires leads { joined self.old.history moment ask.kind ask.target ≡ None }
        requires planned { IsPlanOf self.old.history moment ask.kind ask.target plan }
        requires tries { tries ≡ tries_with self.old.history moment req ask plan }
        requires room { RoomFor self.old (need_of self.old.history moment req ask plan) }
        requires places { owed self.old.history + need_of self.old.history moment req ask plan ≤ self.old.queue.spare }
        ensures between { OnOk result (Between moment self.new) }
        ensures adds { OnOk result (Adds moment (Event.Ask (request_of req req ask plan.scope)) self.old self.new) }
        ensures err { OnErr result (Stays moment self.old self.new) }
    {
        let operation = operation_of(alloc, moment, req, &ask)?;
        let request = Boxed::new(alloc, ask.into_request(req, req, plan.scope))?;
        self.ops
            .begin(alloc, &self.journal, operation, plan, tries)?;
        self.journal.push(Entry {
            moment,
            event: Event::Ask(request),
        });
        requeue(&self.journal, &self.ops, &mut self.queue, req);
        Ok(())
    }
}
