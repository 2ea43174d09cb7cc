// Whether the moment, the numbers, the references and the scope of an entry are in place.

ghost use Rattle.std.specs.Prelude.{◌≡◌, is_some};
ghost use Rattle.std.specs.Option.{option_copied};
ghost use Rattle.fnc_journal.specs.Lawful as Lawful;
ghost use Rattle.fnc_journal.specs.Levels as Levels;
ghost use Rattle.fnc_journal.specs.Missing as Missing;
ghost use Rattle.fnc_journal.specs.Operations as Operations;
ghost use Rattle.fnc_judge.specs.Testing.{moment_by};

use crate::numbers::counted;
use fnc_journal::limits::{DAY, GREATEST_MOMENT};
use fnc_journal::{Entry, Event, Journal, Request, Scope, Start};
use fnc_search::{
    Past, Target, is_current, level_of, oldest, operation_of, pattern_at, registration, request,
    stands, start_of,
};

/// The last entry.
pub(crate) fn last<'a>(past: &Past<'a>) -> Option<&'a Entry>
    ensures { option_copied result ≡ Missing.first_of past.now }
{
    let len = past.len();
    if len == 0 {
        None
    } else {
        Some(past.entry(len - 1))
    }
}

fn moment_of(entry: Option<&Entry>) -> u64
    ensures { result ≡ moment_by (option_copied entry.entry) }
{
    match entry {
        Some(entry) => entry.moment,
        None => 0,
    }
}

/// The last moment, 0 before the first entry.
pub(crate) fn last_moment(past: &Past<'_>) -> u64
    ensures { result ≡ Lawful.last_moment past.now }
{
    moment_of(last(past))
}

fn has_level(past: &Past<'_>, target: &Target<'_>, index: u32) -> bool
    ensures { result ≡ Levels.has_level target.now index past.now }
{
    level_of(past, target, index).is_some()
}

fn pattern_oldest(past: &Past<'_>, at: u32) -> Option<u32>
    ensures { result ≡ Levels.oldest (Levels.pattern_levels at past.now) }
{
    match pattern_at(past, at) {
        Some(text) => oldest(past, &Target::pattern(text)),
        None => None,
    }
}

fn is_in_place(past: &Past<'_>, scope: Scope, target: &str) -> bool
    ensures { result ≡ Levels.is_in_place scope target.now past.now }
{
    let named = stands(past, &Target::name(target));
    match scope {
        Scope::Name => named,
        Scope::Pattern(at) => !named && pattern_oldest(past, at) == Some(at),
        Scope::Nothing => !named,
    }
}

fn is_operation(past: &Past<'_>, req: u32) -> bool
    ensures { result ≡ is_some (Operations.operation req past.now) }
{
    operation_of(past, req).is_some()
}

fn is_request_in_order(request: &Request, past: &Past<'_>) -> bool
    ensures { result ≡ Lawful.in_order (Event.Ask request.now) past.now }
{
    request.req.0 == counted(past).asks
        && request.kind.may_be_asked()
        && 1 <= request.total
        && request.total <= DAY
        && is_in_place(past, request.scope, request.target.as_str())
}

fn is_start_in_order(start: &Start, past: &Past<'_>) -> bool
    ensures { result ≡ Lawful.in_order (Event.Start start.now) past.now }
{
    start.run.0 == counted(past).starts
        && is_operation(past, start.req.0)
        && registration(past, start.reg.0).is_some()
}

/// Whether the numbers, references and scope of an entry are in place.
pub(crate) fn in_order(event: &Event, past: &Past<'_>) -> bool
    ensures { result ≡ Lawful.in_order event.now past.now }
{
    match event {
        Event::Device(device) => device.reg.0 == counted(past).devices,
        Event::Gone { reg } => is_current(past, reg.0),
        Event::LevelGone(cleared) => {
            has_level(past, &Target::of(&cleared.target), u32::from(cleared.index))
        }
        Event::Ask(request) => is_request_in_order(request.get(), past),
        Event::Exit(ended) => start_of(past, ended.run.0).is_some(),
        Event::Start(start) => is_start_in_order(start, past),
        Event::Reply(reply) => request(past, reply.req.0).is_some(),
        _ => true,
    }
}

/// Moments do not fall and end at the greatest one, and the entry is in order.
pub(crate) fn order(entry: &Entry, past: &Past<'_>) -> bool
    ensures { result ≡ Lawful.order entry.now past.now }
{
    entry.moment <= GREATEST_MOMENT
        && last_moment(past) <= entry.moment
        && in_order(&entry.event, past)
}

/// Whether the numbers, references and scope of an event are in place, were it the next of a journal.
pub fn is_in_order(event: &Event, journal: &Journal) -> bool
    ensures { result ≡ Lawful.in_order event.now journal.now.history }
{
    in_order(event, &Past::whole(journal))
}
