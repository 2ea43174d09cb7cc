// The driver: it tells a core an input, starts what may start then, and says what the journal gained.

ghost use Rattle.std.specs.Prelude.{◌≡◌, ◌≤◌, ℕ, true, IfOk, IfSome};
ghost use Rattle.fnc_journal.specs.declared.event.Event.{Event};
ghost use Rattle.std.specs.Bool.{OnTrue};
ghost use Rattle.fnc_journal.specs.Lawful.{in_order};
ghost use Rattle.fnc_core.specs.Between.{IsBoundedEvent};
ghost use Rattle.fnc_core.specs.Cored.{Sound, event_of};
ghost use Rattle.fnc_journal.specs.Known.{LeavesFewNames};
ghost use Rattle.fnc_driver.specs.Askable.{IsAskable};

use crate::plans::plan;
use fnc_core::{Ask, Change, Core};
use fnc_journal::limits::{GREATEST_MOMENT, MOST_DEVICES};
use fnc_journal::{Entry, Event, Journal, NoMemory, Request, Text};
use fnc_journal_reader::{EntryFault, read_entry};
use fnc_journal_text::print_one;
use fnc_judge::{is_in_order, is_plan};
use fnc_outside::MemorySink;
use fnc_rows::Row;
use std::alloc::Global;
use std::str;

/// The most bytes that are said of a row.
const MOST: u32 = 16_384;

/// Whether an input leaves no more names registered than may be: it is no device, or one of the first ever.
fn leaves_few_names(core: &Core, event: &Event) -> bool
    requires sound { Sound core.now }
    requires ordered { in_order event.now core.now.history ≡ true }
    ensures { OnTrue result ((m : ℕ) → LeavesFewNames m event.now core.now.history) }
{
    match event {
        Event::Device(device) => (device.reg.0 as usize) < MOST_DEVICES,
        _ => true,
    }
}

/// The change that an input makes of what a core knows.
fn change_of(core: &Core, event: Event) -> Option<Change>
    requires ordered { in_order event core.now.history ≡ true }
    requires bounded { IsBoundedEvent event }
    requires few { (m : ℕ) → LeavesFewNames m event core.now.history }
    ensures ordered { IfSome result (λ c. in_order (event_of core.now.history c) core.now.history ≡ true) }
    ensures bounded { IfSome result (λ c. IsBoundedEvent (event_of core.now.history c)) }
    ensures few { IfSome result (λ c. (m : ℕ) → LeavesFewNames m (event_of core.now.history c) core.now.history) }
{
    match event {
        Event::Device(device) => Some(Change::Device(device.registration)),
        Event::Gone { reg } => Some(Change::Gone(reg)),
        Event::Level(set) => Some(Change::Level(set)),
        Event::LevelGone(cleared) => Some(Change::LevelGone(cleared)),
        Event::Agent(described) => Some(Change::Agent(described)),
        Event::Confirm(word) => Some(Change::Confirm(word)),
        _ => None,
    }
}

/// Whether an event may be told to the core at a moment.
fn may_be_told(core: &Core, moment: u64, event: &Event) -> bool
    ensures later { OnTrue result (core.now.last ≤ moment) }
    ensures early { OnTrue result (moment ≤ GREATEST_MOMENT) }
    ensures ordered { OnTrue result (in_order event.now core.now.history ≡ true) }
    ensures sound { OnTrue result (Sound core.now) }
{
    core.last() <= moment && moment <= GREATEST_MOMENT && is_in_order(event, core.journal())
}

/// Tells the core an input that is no request, and whether it was told and taken.
fn enter(core: &mut Core, entry: Entry) -> bool
    requires later { core.old.last ≤ entry.moment }
    requires early { entry.moment ≤ GREATEST_MOMENT }
    requires ordered { in_order entry.event core.old.history ≡ true }
    requires bounded { IsBoundedEvent entry.event }
    requires sound { Sound core.old }
{
    let moment = entry.moment;
    if !leaves_few_names(core, &entry.event) {
        return false;
    }
    match entry.event {
        Event::Pass => core.pass(moment).is_ok(),
        Event::Refused(refusal) => core.refuse(moment, refusal.line, refusal.cause).is_ok(),
        Event::Exit(ended) => core
            .exit(moment, ended.run, ended.exit, ended.listed)
            .is_ok(),
        event => match change_of(core, event) {
            Some(change) => core.note(moment, change).is_ok(),
            None => false,
        },
    }
}

/// What a request asks of a core.
#[tactic(auto, using(crate::proofs::InPlace::askable))]
fn ask_of(alloc: Global, core: &Core, request: &Request) -> Result<Ask, NoMemory>
    requires ordered { in_order (Event.Ask request.now) core.now.history ≡ true }
    ensures { IfOk result (λ a. IsAskable a request.now.scope core.now.history) }
{
    Ok(Ask {
        client: Text::new(alloc, request.client.as_str())?,
        kind: request.kind,
        target: Text::new(alloc, request.target.as_str())?,
        total: request.total,
        coin: request.coin,
    })
}

/// Asks the core a request with the plan of its row, and whether that is its plan and it was taken.
fn ask(
    alloc: Global,
    core: &mut Core,
    moment: u64,
    request: &Request,
    row: &Row,
) -> Result<bool, NoMemory>
    requires later { core.old.last ≤ moment }
    requires early { moment ≤ GREATEST_MOMENT }
    requires ordered { in_order (Event.Ask request.now) core.old.history ≡ true }
{
    let ask = ask_of(alloc, core, request)?;
    let plan = plan(alloc, row, request.scope)?;
    if !is_plan(core.journal(), ask.kind, ask.target.as_str(), moment, &plan) {
        return Ok(false);
    }
    Ok(core.ask(alloc, moment, ask, plan).is_ok())
}

/// Starts what may start.
fn start_all(core: &mut Core) {
    for _ in 0..u32::MAX {
        if core.next_start().is_none() {
            return;
        }
    }
}

/// Tells the core the entry of a row, and whether it was told and taken.
fn tell(alloc: Global, core: &mut Core, entry: Entry, row: &Row) -> Result<bool, NoMemory>
    requires { IsBoundedEvent entry.event }
{
    let moment = entry.moment;
    if !may_be_told(core, moment, &entry.event) {
        return Ok(false);
    }
    match &entry.event {
        Event::Ask(request) => ask(alloc, core, moment, request.get(), row),
        _ => Ok(enter(core, entry)),
    }
}

/// The lines of the entries of a journal from an index on.
fn gained(alloc: Global, journal: &Journal, from: u32) -> Result<String, NoMemory> {
    let mut sink = MemorySink::new(alloc, MOST, &[])?;
    for index in from..journal.len() {
        let _printed = print_one(journal.entry(index), &mut sink);
    }
    Ok(String::from_str(alloc, str::from_utf8(sink.bytes()).unwrap_or("no text"))?)
}

/// Tells the core the entry that a row spells, and whether it was told and taken.
#[tactic(auto, using(crate::proofs::Bounded::bounded_when_read))]
fn tell_row(alloc: Global, core: &mut Core, row: &Row) -> Result<bool, NoMemory> {
    match read_entry(alloc, row.bytes(1)) {
        Ok(entry) => tell(alloc, core, entry, row),
        Err(EntryFault::Malformed) => Ok(false),
        Err(EntryFault::NoMemory) => Err(NoMemory),
    }
}

/// What the journal gained by the input of a row, `KIND|ENTRY`, and by what may start then.
pub(crate) fn say(alloc: Global, core: &mut Core, row: &Row) -> Result<String, NoMemory> {
    let from = core.journal().len();
    if !tell_row(alloc, core, row)? {
        return Ok(String::from_str(alloc, "not taken")?);
    }
    start_all(core);
    gained(alloc, core.journal(), from)
}
