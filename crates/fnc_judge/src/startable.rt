// The runs that are alive, and the start that comes first.

ghost use Rattle.std.specs.Prelude.{◌≡◌, ◌&&◌, ◌+◌, ◌<◌, ◌^◌, ◌-◌, if◌then◌else◌, nat_le, Some};
ghost use Rattle.fnc_journal.specs.Lawful.{Lawful};
ghost use Rattle.fnc_journal.specs.Registered.{lane};
ghost use Rattle.fnc_journal.specs.Startable as Starts;
ghost use Rattle.fnc_judge.specs.Opened.{counts, counts_here, is_sooner, startable_any};
ghost use Rattle.fnc_search.specs.Pursued as Pursued;

use crate::course::{ready, standing};
use crate::requests::opened_by;
use fnc_journal::{Event, Start};
use fnc_search::{Operation, Past, Task, has_exit, lane_of};
use std::marker::Model;

/// A start that may be made: an operation, its standing slot, and since when that is ready.
#[derive(Drop)]
pub(crate) struct Startable<'a> {
    pub operation: Operation<'a>,
    pub task: Task<'a>,
    pub ready: u128,
}

impl<'a> Model for Startable<'a> {
    ghost use Rattle.fnc_journal.specs.Startable as Starts;
    ghost use Rattle.fnc_search.specs.Pursued as Pursued;

    ghost Value = { Starts.Startable };

    ghost view = { λ s. record { operation = Pursued.operation s.operation; task = s.task; ready = s.ready } };
}

fn counts_by(past: &Past<'_>, number: u32, start: &Start) -> bool
    ensures { result ≡ counts past.now number (record { run = start.now.run.0; reg = start.now.reg.0 }) }
{
    !has_exit(past, start.run.0) && lane_of(past, start.reg.0) == number
}

fn is_alive_in(past: &Past<'_>, number: u32, event: &Event) -> bool
    ensures { result ≡ counts_here past.now number event.now }
{
    match event {
        Event::Start(start) => counts_by(past, number, start),
        _ => false,
    }
}

fn alive_after(earlier: u32, past: &Past<'_>, number: u32, event: &Event) -> u32
    requires { earlier < 2 ^ 32 - 1 }
    ensures { result ≡ (if counts_here past.now number event.now then earlier + 1 else earlier) }
{
    if is_alive_in(past, number, event) {
        earlier + 1
    } else {
        earlier
    }
}

/// How many runs of a lane are alive.
fn alive(past: &Past<'_>, number: u32) -> u32
    ensures { result ≡ Starts.alive number past.now }
{
    let mut count = 0;
    for i in 0..past.len() {
        count = alive_after(count, past, number, &past.entry(i).event);
    }
    count
}

fn has_place(past: &Past<'_>, task: &Task<'_>) -> bool
    ensures { result ≡ Starts.has_room (Starts.alive (lane task.now.reg past.now) past.now) task.now.definition.cap }
{
    match task.cap() {
        Some(cap) => alive(past, lane_of(past, task.reg())) < cap,
        None => true,
    }
}

fn may_start(past: &Past<'_>, moment: u64, task: &Task<'_>, ready: u128) -> bool
    ensures { result
        ≡ (nat_le ready moment && Starts.has_room (Starts.alive (lane task.now.reg past.now) past.now)
        task.now.definition.cap) }
{
    ready <= u128::from(moment) && has_place(past, task)
}

fn is_before(ready: u128, found: &Option<Startable<'_>>) -> bool
    ensures { result ≡ is_sooner ready found.now }
{
    match found {
        Some(first) => ready < first.ready,
        None => true,
    }
}

/// The sooner of what was found and the start of a slot that is ready. Only where that would be sooner
/// is it asked whether there is room for it.
fn soonest_ready<'a>(
    found: Option<Startable<'a>>,
    past: &Past<'a>,
    moment: u64,
    operation: Operation<'a>,
    task: Task<'a>,
    ready: u128,
) -> Option<Startable<'a>>
    ensures { result
        ≡ Starts.soonest found.entry
        (Starts.startable_ready past.now moment (Pursued.operation operation.entry) task.entry (Some ready)) }
{
    if is_before(ready, &found) && may_start(past, moment, &task, ready) {
        Some(Startable {
            operation,
            task,
            ready,
        })
    } else {
        found
    }
}

/// The sooner of what was found and the start of a slot.
fn soonest_at<'a>(
    found: Option<Startable<'a>>,
    past: &Past<'a>,
    moment: u64,
    operation: Operation<'a>,
    task: Task<'a>,
) -> Option<Startable<'a>>
    requires { Lawful past.now }
    ensures { result
        ≡ Starts.soonest found.entry
        (Starts.startable_at past.now moment (Pursued.operation operation.entry) (Some task.entry)) }
{
    match ready(&operation, moment, past, &task) {
        Some(ready) => soonest_ready(found, past, moment, operation, task, ready),
        None => found,
    }
}

/// The sooner of what was found and the start of an operation.
fn soonest_of<'a>(
    found: Option<Startable<'a>>,
    past: &Past<'a>,
    moment: u64,
    operation: Operation<'a>,
) -> Option<Startable<'a>>
    requires { Lawful past.now }
    ensures { result
        ≡ Starts.soonest found.entry (Starts.startable past.now moment (Pursued.operation operation.entry)) }
{
    match standing(&operation, moment, past) {
        Some(task) => soonest_at(found, past, moment, operation, task),
        None => found,
    }
}

fn soonest_with<'a>(
    found: Option<Startable<'a>>,
    past: &Past<'a>,
    moment: u64,
    operation: Option<Operation<'a>>,
) -> Option<Startable<'a>>
    requires { Lawful past.now }
    ensures { result ≡ Starts.soonest found.entry (startable_any past.now moment operation.entry) }
{
    match operation {
        Some(operation) => soonest_of(found, past, moment, operation),
        None => found,
    }
}

/// The first to start at a moment.
pub(crate) fn first<'a>(past: &Past<'a>, moment: u64) -> Option<Startable<'a>>
    requires { Lawful past.now }
    ensures { result ≡ Starts.first past.now moment }
{
    let mut found = None;
    for i in 0..past.len() {
        let here = opened_by(past, &past.entry(i).event);
        found = soonest_with(found, past, moment, here);
    }
    found
}
