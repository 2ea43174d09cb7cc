// The job of a start.

ghost use Rattle.std.specs.Prelude.{◌≡◌, Some, IfOk, IsTrue, is_some};
ghost use Rattle.fnc_journal.specs.EntryBounds.{is_bounded, are_within};
ghost use Rattle.fnc_journal.specs.Found as Found;
ghost use Rattle.fnc_journal.specs.Names.{is_name};
ghost use Rattle.fnc_core.specs.Between.{start_of};
ghost use Rattle.fnc_core.specs.Cored.{IsFirstStart};
ghost use Rattle.fnc_jobs.specs.JobOf.{IsJobOf, job_with};

use crate::input::input_of;
use fnc_core::Started;
use fnc_journal::{Bytes, Journal, Kind, NoMemory, Reg, Registration, Req, Request, Run, Text};
use std::alloc::Global;

/// What an agent is run with: the program, the device's name, the action, the word that stands for it, and the node;
/// how many milliseconds are left until an exit no longer counts; and what the program reads on its standard input.
#[derive(Debug, Drop)]
pub struct Job {
    pub run: Run,
    pub program: Text,
    pub device: Text,
    pub kind: Kind,
    pub word: Text,
    pub target: Text,
    pub limit_ms: u64,
    pub input: Bytes,
}

/// The job of the start that may be made first at the last moment.
pub fn job_of(
    alloc: Global,
    journal: &Journal,
    started: &Started,
    last: u64,
) -> Result<Job, NoMemory>
    requires within { IsTrue (are_within journal.now.history) }
    requires first { IsFirstStart journal.now.history last started.now }
    ensures { IfOk result (IsJobOf journal.now.history last started.now) }
{
    let registration = registration_of(journal, started.reg);
    let request = request_of(journal, started.req);
    job_on(alloc, registration, request.target.as_str(), started, last)
}

/// The registration of a number that is registered.
fn registration_of(journal: &Journal, reg: Reg) -> &Registration
    requires { IsTrue (is_some (Found.registration reg.0 journal.now.history)) }
    ensures { Found.registration reg.0 journal.now.history ≡ Some result.now }
{
    match journal.registration(reg) {
        Some(registration) => registration,
        None => unreachable!(),
    }
}

/// The request of a number that was asked.
fn request_of(journal: &Journal, req: Req) -> &Request
    requires { IsTrue (is_some (Found.request req.0 journal.now.history)) }
    ensures { Found.request req.0 journal.now.history ≡ Some result.now }
{
    match journal.request(req) {
        Some(request) => request,
        None => unreachable!(),
    }
}

/// The job of a start on a device, for a node.
fn job_on(
    alloc: Global,
    registration: &Registration,
    target: &str,
    started: &Started,
    last: u64,
) -> Result<Job, NoMemory>
    requires bounded { IsTrue (is_bounded registration.now.definition) }
    requires named { IsTrue (is_name target.now) }
    ensures { IfOk result (λ job. job
        ≡ job_with last (start_of started.now) registration.now target.now started.now.limit) }
{
    let definition = &registration.definition;
    Ok(Job {
        run: started.run,
        program: Text::new(alloc, registration.agent.as_str())?,
        device: Text::new(alloc, registration.name.as_str())?,
        kind: started.kind,
        word: Text::new(alloc, definition.allowed(started.kind).word.as_str())?,
        target: Text::new(alloc, target)?,
        limit_ms: started.limit.saturating_sub(last),
        input: input_of(alloc, definition, started.kind, target)?,
    })
}
