// Calls of the queue of tries that wait for a start.

use fnc_journal::{NoMemory, Reg, Req};
use fnc_queue::{Queue, Waiting};
use fnc_rows::Row;
use std::alloc::Global;

/// Takes room for one more item and adds it, in place of what waits of its operation.
fn add(queue: &mut Queue, item: Waiting) -> Result<(), NoMemory> {
    queue.reserve(1)?;
    if queue.withdraw(item.req).is_none() {
        queue.add(item);
    }
    Ok(())
}

/// A run of the lane ends, where one is alive.
fn end(queue: &mut Queue, lane: Reg) {
    if queue.alive(lane) > 0 {
        queue.ended(lane);
    }
}

/// The item of a row, without limit where it names none.
fn item(row: &Row) -> Waiting {
    Waiting {
        req: Req(row.number32(1)),
        lane: Reg(row.number32(2)),
        ready: row.number(3),
        cap: if row.bytes(4).is_empty() {
            None
        } else {
            Some(row.number32(4))
        },
    }
}

/// What is said of a call that answers nothing.
fn done(alloc: Global, done: Result<(), NoMemory>) -> Result<String, NoMemory> {
    done?;
    Ok(String::new(alloc))
}

/// What is said of how many runs are alive on a lane.
fn alive(alloc: Global, queue: &Queue, lane: Reg) -> Result<String, NoMemory> {
    Ok(format!(in alloc; "{}", queue.alive(lane))?)
}

/// What is said of an item: its operation.
fn operation(alloc: Global, item: Option<Waiting>) -> Result<String, NoMemory> {
    Ok(format!(in alloc; "{:?}", item.map(|item| item.req.0))?)
}

/// What is said of an item that is withdrawn: since when it was ready.
fn since(alloc: Global, item: Option<Waiting>) -> Result<String, NoMemory> {
    Ok(format!(in alloc; "{:?}", item.map(|item| item.ready))?)
}

/// What is said of a row: `reserve|ITEMS`, `add|OPERATION|LANE|READY|LIMIT`, `end|LANE` and `alive|LANE` of the runs
/// that are alive on a lane, and `first|MOMENT`, `take|MOMENT` and `withdraw|OPERATION` of an item.
pub(crate) fn say(alloc: Global, queue: &mut Queue, row: &Row) -> Result<String, NoMemory> {
    let number = row.number32(1);
    match row.text(0) {
        "reserve" => done(alloc, queue.reserve(number)),
        "add" => done(alloc, add(queue, item(row))),
        "end" => {
            end(queue, Reg(number));
            alive(alloc, queue, Reg(number))
        }
        "alive" => alive(alloc, queue, Reg(number)),
        "first" => operation(alloc, queue.first(row.number(1)).copied()),
        "take" => operation(alloc, queue.take_first(row.number(1))),
        _ => since(alloc, queue.withdraw(Req(number))),
    }
}
