// The rules that each entry of a lawful journal keeps, each tested for one entry and those before it.

ghost use Rattle.std.specs.Prelude.{◌≡◌, ◌+◌, ◌<◌, ◌^◌, ◌-◌, ◌&&◌, if◌then◌else◌, false, option_map, unwrap_or};
ghost use Rattle.std.specs.Option.{option_copied};
ghost use Rattle.fnc_journal.specs.Acts as Acts;
ghost use Rattle.fnc_journal.specs.Found as Found;
ghost use Rattle.fnc_journal.specs.Lawful as Lawful;
ghost use Rattle.fnc_journal.specs.Operations as Operations;
ghost use Rattle.fnc_journal.specs.Same as Same;
ghost use Rattle.fnc_journal.specs.Startable as Starts;
ghost use Rattle.fnc_judge.specs.Courses.{answer_of};
ghost use Rattle.fnc_search.specs.Pursued as Pursued;
ghost use Rattle.fnc_judge.specs.Testing.{is_start_with, lead_for, pending_after, replied_as, runs_here, started_as};

use crate::course::Due;
use crate::ordered::{last, last_moment, order};
use crate::requests::{due_to, first_due, first_waiting, is_open, joined, settled};
use crate::startable::{Startable, first};
use fnc_journal::{Answer, Entry, Event, Reply, Request, Rule, Slot, Start};
use fnc_search::{Operation, Past, has_exit, is_answered, lead, start_of};
use std::marker::Model;

fn is_alive(past: &Past<'_>, run: u32) -> bool
    ensures { result ≡ Starts.is_alive run past.now }
{
    start_of(past, run).is_some() && !has_exit(past, run)
}

/// An exit is of a run that is alive.
pub(crate) fn exit(entry: &Entry, past: &Past<'_>) -> bool
    ensures { result ≡ Lawful.exit entry.now past.now }
{
    match &entry.event {
        Event::Exit(ended) => is_alive(past, ended.run.0),
        _ => true,
    }
}

fn is_run_of(event: &Event, req: u32, slot: Slot) -> bool
    ensures { result ≡ runs_here req slot event.now }
{
    match event {
        Event::Start(start) => req == start.req.0 && slot.is(start.slot),
        _ => false,
    }
}

fn runs_after(earlier: u32, event: &Event, req: u32, slot: Slot) -> u32
    requires { earlier < 2 ^ 32 - 1 }
    ensures { result ≡ (if runs_here req slot event.now then earlier + 1 else earlier) }
{
    if is_run_of(event, req, slot) {
        earlier + 1
    } else {
        earlier
    }
}

/// How many runs a slot of an operation has had.
fn runs(past: &Past<'_>, req: u32, slot: Slot) -> u32
    ensures { result ≡ Acts.runs slot (Acts.acts req past.now) }
{
    let mut count = 0;
    for i in 0..past.len() {
        count = runs_after(count, &past.entry(i).event, req, slot);
    }
    count
}

impl<'a> Startable<'a> {
    fn is_with(&self, start: &Start) -> bool
        ensures { result ≡ is_start_with start.now self.now }
    {
        start.req.0 == self.operation.req()
            && self.task.is_of(start.slot)
            && start.reg.0 == self.task.reg()
            && start.kind.is(self.task.kind())
    }
}

fn is_start_of(past: &Past<'_>, start: &Start, first: Option<Startable<'_>>) -> bool
    ensures { result ≡ started_as start.now past.now first.entry }
{
    match first {
        Some(first) => {
            first.is_with(start)
                && u64::from(start.attempt) == u64::from(runs(past, start.req.0, start.slot)) + 1
        }
        None => false,
    }
}

/// A start is of the first that may start.
pub(crate) fn start(entry: &Entry, past: &Past<'_>) -> bool
    requires { Lawful.Lawful past.now }
    ensures { result ≡ Lawful.start entry.now past.now }
{
    match &entry.event {
        Event::Start(start) => is_start_of(past, start, first(past, entry.moment)),
        _ => true,
    }
}

/// The last entry, where it is a reply of an operation that is still open.
#[derive(Drop)]
struct Pending {
    operation: u32,
    answer: Answer,
    moment: u64,
}

impl Model for Pending {
    ghost use Rattle.fnc_journal.specs.Lawful as Lawful;

    ghost Value = { Lawful.Pending };

    ghost view = { λ p. record { operation = p.operation; answer = p.answer; moment = p.moment } };
}

fn pending_of(past: &Past<'_>, entry: &Entry) -> Option<Pending>
    requires { Lawful.Lawful past.now }
    ensures { result ≡ Lawful.pending_of entry.now.moment entry.now.event past.now }
{
    match &entry.event {
        Event::Reply(reply) => {
            let operation = lead(past, reply.req.0)?;
            if is_open(past, operation) {
                Some(Pending {
                    operation,
                    answer: reply.answer,
                    moment: entry.moment,
                })
            } else {
                None
            }
        }
        _ => None,
    }
}

fn pending_of_last(past: &Past<'_>, last: Option<&Entry>) -> Option<Pending>
    requires { Lawful.Lawful past.now }
    ensures { result ≡ pending_after past.now (option_copied last.entry) }
{
    match last {
        Some(entry) => pending_of(past, entry),
        None => None,
    }
}

/// The reply that must be continued, if there is one.
fn last_pending(past: &Past<'_>) -> Option<Pending>
    requires { Lawful.Lawful past.now }
    ensures { result ≡ Lawful.pending past.now }
{
    pending_of_last(past, last(past))
}

fn continues(pending: Option<Pending>, entry: &Entry, past: &Past<'_>) -> bool
    ensures { result ≡ Lawful.continues pending entry.now.moment entry.now.event past.now }
{
    match (pending, &entry.event) {
        (None, _) => true,
        (Some(pending), Event::Reply(reply)) => {
            lead(past, reply.req.0) == Some(pending.operation)
                && reply.answer.is(pending.answer)
                && entry.moment == pending.moment
        }
        (Some(_), _) => false,
    }
}

fn is_first_reply(event: &Event, past: &Past<'_>) -> bool
    ensures { result ≡ Lawful.is_first_reply event.now past.now }
{
    match event {
        Event::Reply(reply) => !is_answered(past, reply.req.0),
        _ => true,
    }
}

/// No request is answered twice, and the replies of an operation follow each other.
pub(crate) fn once(entry: &Entry, past: &Past<'_>) -> bool
    requires { Lawful.Lawful past.now }
    ensures { result ≡ Lawful.once entry.now past.now }
{
    is_first_reply(&entry.event, past) && continues(last_pending(past), entry, past)
}

fn is_answer(answer: Answer, due: Due) -> bool
    ensures { result ≡ Same.same_answer answer (answer_of due) }
{
    match (answer, due) {
        (Answer::Passed(level), Due::Passed(number)) => u64::from(level) == number,
        (Answer::Levels, Due::Levels)
        | (Answer::Time, Due::Time)
        | (Answer::NoDevice, Due::NoDevice)
        | (Answer::Confirmed, Due::Confirmed) => true,
        _ => false,
    }
}

fn is_answered_with(answer: Answer, due: Option<Due>) -> bool
    ensures { result ≡ unwrap_or (option_map (Same.same_answer answer) (option_map answer_of due)) false }
{
    match due {
        Some(due) => is_answer(answer, due),
        None => false,
    }
}

fn is_due_answer(past: &Past<'_>, moment: u64, answer: Answer, operation: &Operation<'_>) -> bool
    requires { Lawful.Lawful past.now }
    ensures { result
        ≡ unwrap_or (option_map (Same.same_answer answer)
        (Operations.due_to past.now moment (Pursued.operation operation.now))) false }
{
    is_answered_with(answer, due_to(past, moment, operation))
}

fn is_reply_of(
    past: &Past<'_>,
    moment: u64,
    reply: &Reply,
    operation: Option<Operation<'_>>,
) -> bool
    requires { Lawful.Lawful past.now }
    ensures { result ≡ replied_as reply.now moment past.now (option_map Pursued.operation operation.entry) }
{
    match operation {
        Some(operation) => {
            first_waiting(past, operation.req()) == Some(reply.req.0)
                && is_due_answer(past, moment, reply.answer, &operation)
        }
        None => false,
    }
}

fn is_reply_due(past: &Past<'_>, moment: u64, reply: &Reply) -> bool
    requires { Lawful.Lawful past.now }
    ensures { result ≡ replied_as reply.now moment past.now (Operations.first_due past.now moment) }
{
    is_reply_of(past, moment, reply, first_due(past, moment))
}

/// A reply is the one that is due.
pub(crate) fn reply(entry: &Entry, past: &Past<'_>) -> bool
    requires { Lawful.Lawful past.now }
    ensures { result ≡ Lawful.reply entry.now past.now }
{
    match &entry.event {
        Event::Reply(reply) => is_reply_due(past, entry.moment, reply),
        _ => true,
    }
}

fn number_of(operation: Option<Operation<'_>>, req: u32) -> u32
    ensures { result ≡ unwrap_or (option_map (λ o. o.req) (option_map Pursued.operation operation.entry)) req }
{
    match operation {
        Some(operation) => operation.req(),
        None => req,
    }
}

fn lead_wanted(past: &Past<'_>, moment: u64, request: &Request) -> u32
    requires { Lawful.Lawful past.now }
    ensures { result ≡ lead_for request.now moment past.now }
{
    let operation = joined(past, moment, request.kind, request.target.as_str());
    number_of(operation, request.req.0)
}

fn leads(entry: &Entry, past: &Past<'_>) -> bool
    requires { Lawful.Lawful past.now }
    ensures { result ≡ Lawful.leads entry.now.event entry.now.moment past.now }
{
    match &entry.event {
        Event::Ask(request) => {
            let request = request.get();
            request.lead.0 == lead_wanted(past, entry.moment, request)
        }
        _ => true,
    }
}

fn is_input(event: &Event) -> bool
    ensures { result ≡ Found.is_input event.now }
{
    match event {
        Event::Start(_) | Event::Reply(_) => false,
        _ => true,
    }
}

fn settled_since(past: &Past<'_>) -> bool
    requires { Lawful.Lawful past.now }
    ensures { result ≡ Lawful.settled_since past.now }
{
    settled(past, last_moment(past))
}

/// Whether nothing is due, at a moment and at the last.
fn settled_twice(past: &Past<'_>, moment: u64) -> bool
    requires { Lawful.Lawful past.now }
    ensures { result ≡ (Operations.settled past.now moment && Lawful.settled_since past.now) }
{
    settled(past, moment) && (last_moment(past) == moment || settled_since(past))
}

/// Before an input nothing is due, at its moment and at the last, and an Ask has the right lead.
pub(crate) fn prompt(entry: &Entry, past: &Past<'_>) -> bool
    requires { Lawful.Lawful past.now }
    ensures { result ≡ Lawful.prompt entry.now past.now }
{
    if is_input(&entry.event) {
        settled_twice(past, entry.moment) && leads(entry, past)
    } else {
        true
    }
}

/// The first rule that an entry breaks.
pub(crate) fn broken(entry: &Entry, past: &Past<'_>) -> Option<Rule>
    requires { Lawful.Lawful past.now }
    ensures { result ≡ Lawful.broken entry.now past.now }
{
    if !order(entry, past) {
        Some(Rule::Order)
    } else if !exit(entry, past) {
        Some(Rule::Exit)
    } else if !start(entry, past) {
        Some(Rule::Start)
    } else if !once(entry, past) {
        Some(Rule::Once)
    } else if !reply(entry, past) {
        Some(Rule::Reply)
    } else if !prompt(entry, past) {
        Some(Rule::Prompt)
    } else {
        None
    }
}
