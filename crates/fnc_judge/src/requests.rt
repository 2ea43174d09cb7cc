// The requests that wait, the operations that are open, and the answers that are due to them.

ghost use Rattle.std.specs.Prelude.{◌≡◌, ◌||◌, ◌<◌, ◌-◌, if◌then◌else◌, false, find, is_none, is_some, option_map, true};
ghost use Rattle.std.specs.Prelude.{unwrap_or};
ghost use Rattle.fnc_journal.specs.Lawful.{Lawful};
ghost use Rattle.fnc_journal.specs.Acts.{acts};
ghost use Rattle.fnc_journal.specs.Due as Dues;
ghost use Rattle.std.specs.Option.{option_copied};
ghost use Rattle.fnc_journal.specs.Found as Found;
ghost use Rattle.fnc_journal.specs.Missing.{first_of, is_number};
ghost use Rattle.fnc_journal.specs.Operations as Operations;
ghost use Rattle.fnc_judge.specs.Courses.{answer_of};
ghost use Rattle.fnc_judge.specs.Opened as Opened;
ghost use Rattle.fnc_judge.specs.Opened.{found_after, opened, opens, waiting, waiting_here};
ghost use Rattle.fnc_search.specs.Pursued.{pursued_of};
ghost use Rattle.fnc_search.specs.Pursued as Pursued;

use crate::course::{Due, due_by_acts, standing};
use crate::ordered::last;
use fnc_journal::{Entry, Event, Kind, Phase};
use fnc_search::{Operation, Past, Task, begun_from, is_answered, lead, operation_of, request};

fn confirms(operation: &Operation<'_>, before: &Past<'_>, event: &Event) -> bool
    ensures { result ≡ Dues.confirms (Pursued.operation operation.now) before.now event.now }
{
    match event {
        Event::Confirm(confirmation) => {
            confirmation.target.is(operation.target()) && request(before, operation.req()).is_some()
        }
        _ => false,
    }
}

fn confirmed_after(
    earlier: bool,
    operation: &Operation<'_>,
    before: &Past<'_>,
    event: &Event,
) -> bool
    ensures { result ≡ (Dues.confirms (Pursued.operation operation.now) before.now event.now || earlier) }
{
    confirms(operation, before, event) || earlier
}

/// Whether an operator confirmed since an operation was asked that its target is down.
fn is_confirmed(operation: &Operation<'_>, past: &Past<'_>) -> bool
    requires { Lawful past.now }
    ensures { result ≡ Dues.is_confirmed (Pursued.operation operation.now) past.now }
{
    let mut found = false;
    for i in begun_from(past, operation.req())..past.len() {
        found = confirmed_after(found, operation, &past.before(i), &past.entry(i).event);
    }
    found
}

/// The answer that is due to an operation.
pub(crate) fn due_to(past: &Past<'_>, moment: u64, operation: &Operation<'_>) -> Option<Due>
    requires { Lawful past.now }
    ensures { option_map answer_of result ≡ Operations.due_to past.now moment (Pursued.operation operation.now) }
{
    if is_confirmed(operation, past) && operation.kind().cuts_power() {
        Some(Due::Confirmed)
    } else {
        due_by_acts(operation, moment, past)
    }
}

fn request_here(event: &Event, req: u32) -> Option<u32>
    ensures { result ≡ Operations.request_here req event.now }
{
    match event {
        Event::Ask(request) => {
            let request = request.get();
            if req == request.lead.0 {
                Some(request.req.0)
            } else {
                None
            }
        }
        _ => None,
    }
}

fn waiting_by(past: &Past<'_>, req: u32, event: &Event) -> Option<u32>
    ensures { result ≡ waiting_here past.now req event.now }
{
    let number = request_here(event, req)?;
    if is_answered(past, number) {
        None
    } else {
        Some(number)
    }
}

/// The first request of an operation that has no reply.
pub(crate) fn first_waiting(past: &Past<'_>, req: u32) -> Option<u32>
    requires { Lawful past.now }
    ensures { result ≡ first_of (Operations.unanswered req past.now) }
{
    for i in begun_from(past, req)..past.len() {
        if let Some(number) = waiting_by(past, req, &past.entry(i).event) {
            return Some(number);
        }
    }
    None
}

fn replies_for(past: &Past<'_>, req: u32, event: &Event) -> bool
    ensures { result ≡ Opened.replies_for req event.now past.now }
{
    match event {
        Event::Reply(reply) => lead(past, reply.req.0) == Some(req),
        _ => false,
    }
}

fn replies_after(past: &Past<'_>, req: u32, last: Option<&Entry>) -> bool
    ensures { result ≡ Opened.replies_after req past.now (option_copied last.entry) }
{
    match last {
        Some(entry) => replies_for(past, req, &entry.event),
        None => false,
    }
}

/// Whether the last entry is a reply of an operation.
fn last_replies(past: &Past<'_>, req: u32) -> bool
    ensures { result ≡ Opened.last_replies req past.now }
{
    replies_after(past, req, last(past))
}

fn has_waiting(past: &Past<'_>, req: u32) -> bool
    requires { Lawful past.now }
    ensures { result ≡ Operations.is_open req past.now }
{
    first_waiting(past, req).is_some()
}

/// The same of an operation whose own request is answered. Its replies follow each other, so that it is
/// closed once another entry came.
fn is_still_open(past: &Past<'_>, req: u32) -> bool
    requires lawful { Lawful past.now }
    requires led { is_number (Operations.lead_of req past.now) req ≡ true }
    requires answered { Found.is_answered req past.now ≡ true }
    ensures { result ≡ Operations.is_open req past.now }
{
    if last_replies(past, req) {
        has_waiting(past, req)
    } else {
        false
    }
}

fn is_open_lead(past: &Past<'_>, req: u32) -> bool
    requires lawful { Lawful past.now }
    requires led { is_number (Operations.lead_of req past.now) req ≡ true }
    ensures { result ≡ Operations.is_open req past.now }
{
    if is_answered(past, req) {
        is_still_open(past, req)
    } else {
        true
    }
}

fn leads_itself(past: &Past<'_>, req: u32) -> bool
    ensures { result ≡ is_number (Operations.lead_of req past.now) req }
{
    lead(past, req) == Some(req)
}

/// Whether an operation is open: whether a request of it waits.
pub(crate) fn is_open(past: &Past<'_>, req: u32) -> bool
    requires { Lawful past.now }
    ensures { result ≡ Operations.is_open req past.now }
{
    if leads_itself(past, req) {
        is_open_lead(past, req)
    } else {
        has_waiting(past, req)
    }
}

fn operation_here(event: &Event) -> Option<u32>
    ensures { result ≡ Operations.operation_here event.now }
{
    match event {
        Event::Ask(request) => {
            let request = request.get();
            if request.req.0 == request.lead.0 {
                Some(request.req.0)
            } else {
                None
            }
        }
        _ => None,
    }
}

/// The operation that an entry begins, where it is open.
pub(crate) fn opened_by<'a>(past: &Past<'a>, event: &Event) -> Option<Operation<'a>>
    requires { Lawful past.now }
    ensures { result ≡ opened past.now event.now }
{
    let req = operation_here(event)?;
    if is_open(past, req) {
        operation_of(past, req)
    } else {
        None
    }
}

fn is_due(past: &Past<'_>, moment: u64, operation: &Operation<'_>) -> bool
    requires { Lawful past.now }
    ensures { result ≡ Operations.is_due past.now moment (Pursued.operation operation.now) }
{
    due_to(past, moment, operation).is_some()
}

fn due_among<'a>(past: &Past<'_>, moment: u64, here: Option<Operation<'a>>) -> Option<Operation<'a>>
    requires { Lawful past.now }
    ensures { result ≡ found_after (λ p. Operations.is_due past.now moment (Pursued.operation p)) None here.entry }
{
    let operation = here?;
    if is_due(past, moment, &operation) {
        Some(operation)
    } else {
        None
    }
}

fn find_due<'a>(past: &Past<'a>, moment: u64) -> Option<Operation<'a>>
    requires { Lawful past.now }
    ensures { result ≡ find (λ p. Operations.is_due past.now moment (Pursued.operation p)) (opens past.now past.now) }
{
    for i in 0..past.len() {
        let here = opened_by(past, &past.entry(i).event);
        if let Some(operation) = due_among(past, moment, here) {
            return Some(operation);
        }
    }
    None
}

/// The least operation to which an answer is due.
pub(crate) fn first_due<'a>(past: &Past<'a>, moment: u64) -> Option<Operation<'a>>
    requires { Lawful past.now }
    ensures { option_map Pursued.operation result ≡ Operations.first_due past.now moment }
{
    find_due(past, moment)
}

fn is_nobody(operation: Option<Operation<'_>>) -> bool
    ensures { result ≡ is_none (option_map Pursued.operation operation.entry) }
{
    match operation {
        Some(_) => false,
        None => true,
    }
}

/// Whether no answer is due.
pub(crate) fn settled(past: &Past<'_>, moment: u64) -> bool
    requires { Lawful past.now }
    ensures { result ≡ Operations.settled past.now moment }
{
    is_nobody(first_due(past, moment))
}

fn is_on(task: &Option<Task<'_>>) -> bool
    ensures { result ≡ unwrap_or (option_map Operations.is_on task.now) false }
{
    match task {
        Some(task) => task.phase().is(Phase::On),
        None => false,
    }
}

fn is_joinable(
    past: &Past<'_>,
    moment: u64,
    kind: Kind,
    target: &str,
    operation: &Operation<'_>,
) -> bool
    requires { Lawful past.now }
    ensures { result ≡ Operations.is_joinable past.now moment kind target.now (Pursued.operation operation.now) }
{
    kind.is(operation.kind())
        && target == operation.target()
        && !is_on(&standing(operation, moment, past))
}

fn joinable_among<'a>(
    past: &Past<'_>,
    moment: u64,
    kind: Kind,
    target: &str,
    here: Option<Operation<'a>>,
) -> Option<Operation<'a>>
    requires { Lawful past.now }
    ensures { result
        ≡ found_after (λ p. Operations.is_joinable past.now moment kind target.now (Pursued.operation p)) None
        here.entry }
{
    let operation = here?;
    if is_joinable(past, moment, kind, target, &operation) {
        Some(operation)
    } else {
        None
    }
}

fn find_joinable<'a>(
    past: &Past<'a>,
    moment: u64,
    kind: Kind,
    target: &str,
) -> Option<Operation<'a>>
    requires { Lawful past.now }
    ensures { result
        ≡ find (λ p. Operations.is_joinable past.now moment kind target.now (Pursued.operation p))
        (opens past.now past.now) }
{
    for i in 0..past.len() {
        let here = opened_by(past, &past.entry(i).event);
        if let Some(operation) = joinable_among(past, moment, kind, target, here) {
            return Some(operation);
        }
    }
    None
}

/// The operation that a request joins, if there is one.
pub(crate) fn joined<'a>(
    past: &Past<'a>,
    moment: u64,
    kind: Kind,
    target: &str,
) -> Option<Operation<'a>>
    requires { Lawful past.now }
    ensures { option_map Pursued.operation result ≡ Operations.joined past.now moment kind target.now }
{
    find_joinable(past, moment, kind, target)
}
