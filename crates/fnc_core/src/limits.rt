// The limit of a slot, at which an exit no longer counts.

ghost use Rattle.std.specs.Prelude.{◌≡◌, ◌≤◌, Some};
ghost use Rattle.fnc_journal.specs.Slots.{Operation};
ghost use Rattle.fnc_journal.specs.Operations as Operations;
ghost use Rattle.fnc_journal.specs.Lawful.{Lawful};
ghost use Rattle.fnc_ops.specs.Stands.{AreBounded};
ghost use Rattle.fnc_core.specs.Limits as Limits;

use fnc_journal::limits::{DAY, GREATEST_MOMENT};
use fnc_journal::{Entry, Event, Journal, Kind, Reg, Req};
use fnc_records::Standing;

/// When the total time of a request is over, by its entry.
fn over_by(entry: &Entry) -> u64
    ensures { result ≡ Limits.over_by entry.now.moment entry.now.event }
{
    match &entry.event {
        Event::Ask(request) => entry.moment.saturating_add(request.get().total),
        _ => entry.moment,
    }
}

/// When the total time of an operation is over.
fn over_of(journal: &Journal, req: Req) -> u64
    requires { Lawful journal.now.history }
    ensures { (o : Operation) → Operations.operation req.0 journal.now.history ≡ Some o → result ≡ o.over }
{
    match journal.asked(req) {
        Some(entry) => over_by(entry),
        None => 0,
    }
}

/// How long an action of a registration may take.
fn time_of(journal: &Journal, reg: Reg, kind: Kind) -> u64
    requires { AreBounded journal.now.history }
    ensures value { result ≡ Limits.time_of reg.0 kind journal.now.history }
    ensures short { result ≤ DAY }
{
    match journal.registration(reg) {
        None => 0,
        Some(registration) => registration.definition.allowed(kind).time,
    }
}

/// The limit of the slot at which an operation stands: for a first try the one that it gets by a start now.
pub(crate) fn limit_of(journal: &Journal, req: Req, standing: Standing, moment: u64) -> u64
    requires lawful { Lawful journal.now.history }
    requires bounded { AreBounded journal.now.history }
    requires early { moment ≤ GREATEST_MOMENT }
    ensures { (o : Operation) → Operations.operation req.0 journal.now.history ≡ Some o →
        result ≡ Limits.limit_at moment o.over
        (Limits.time_of standing.reg.0 standing.kind journal.now.history) standing.limit }
{
    match standing.limit {
        Some(at) => at,
        None => {
            let end = moment + time_of(journal, standing.reg, standing.kind);
            over_of(journal, req).min(end)
        }
    }
}
