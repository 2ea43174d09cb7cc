// What is found in the first entries of a journal by its number.

ghost use Rattle.std.specs.Prelude.{◌≡◌, ◌<◌, Some, if◌then◌else◌, None};
ghost use Rattle.std.specs.Option.{option_copied};
ghost use Rattle.fnc_journal.specs.Found as Found;
ghost use Rattle.fnc_journal.specs.Operations.{lead_of};

use crate::past::Past;
use fnc_journal::{Entry, Event, Kind, Registration, Scope, Start};
use std::marker::Model;

/// A request: what its entry says, and what lies before it.
#[derive(Drop)]
pub struct Asked<'a> {
    pub(crate) moment: u64,
    pub(crate) lead: u32,
    pub(crate) kind: Kind,
    pub(crate) target: &'a str,
    pub(crate) total: u64,
    pub(crate) coin: u64,
    pub(crate) scope: Scope,
    pub(crate) before: Past<'a>,
}

impl<'a> Model for Asked<'a> {
    ghost Value = { Found.Asked };

    ghost view = { λ a. record {
      moment = a.moment;
      lead = a.lead;
      kind = a.kind;
      target = a.target.now;
      total = a.total;
      coin = a.coin;
      scope = a.scope;
      before = a.before;
    } };
}

fn registration_here(event: &Event, reg: u32) -> Option<&Registration>
    ensures { option_copied result ≡ Found.registration_here reg event.now }
{
    match event {
        Event::Device(device) => {
            if reg == device.reg.0 {
                Some(device.registration.get())
            } else {
                None
            }
        }
        _ => None,
    }
}

/// What the registration of a number was made with.
pub fn registration<'a>(past: &Past<'a>, reg: u32) -> Option<&'a Registration>
    ensures { option_copied result ≡ Found.registration reg past.now }
{
    let at = past.device_at(reg)?;
    registration_here(&past.entry(at).event, reg)
}

fn asked_here<'a>(entry: &'a Entry, before: Past<'a>, req: u32) -> Option<Asked<'a>>
    ensures { result ≡ Found.asked_here req entry.now.moment before.entry entry.now.event }
{
    match &entry.event {
        Event::Ask(request) => {
            let request = request.get();
            if req == request.req.0 {
                Some(Asked {
                    moment: entry.moment,
                    lead: request.lead.0,
                    kind: request.kind,
                    target: request.target.as_str(),
                    total: request.total,
                    coin: request.coin,
                    scope: request.scope,
                    before,
                })
            } else {
                None
            }
        }
        _ => None,
    }
}

/// The request of a number.
pub fn request<'a>(past: &Past<'a>, req: u32) -> Option<Asked<'a>>
    ensures { result ≡ Found.asked req past.now }
{
    let at = past.ask_at(req)?;
    asked_here(past.entry(at), past.before(at), req)
}

/// The operation that a request joined or began.
pub fn lead(past: &Past<'_>, req: u32) -> Option<u32>
    ensures { result ≡ lead_of req past.now }
{
    Some(request(past, req)?.lead)
}

fn started_here(event: &Event, run: u32) -> Option<Start>
    ensures { result ≡ Found.started_here run event.now }
{
    match event {
        Event::Start(start) => {
            if run == start.run.0 {
                Some(*start)
            } else {
                None
            }
        }
        _ => None,
    }
}

/// The start of a run.
pub fn start_of(past: &Past<'_>, run: u32) -> Option<Start>
    ensures { result ≡ Found.started run past.now }
{
    let at = past.start_at(run)?;
    started_here(&past.entry(at).event, run)
}

/// Whether a run has had its exit.
pub fn has_exit(past: &Past<'_>, run: u32) -> bool
    ensures { result ≡ Found.has_exit run past.now }
{
    past.exit_at(run).is_some()
}

/// Whether a request has had its reply.
pub fn is_answered(past: &Past<'_>, req: u32) -> bool
    ensures { result ≡ Found.is_answered req past.now }
{
    past.reply_at(req).is_some()
}
