// Journals that are judged, printed and looked up, and calls of the queue: a table on standard input, each row printed
// with what is said of it.
#![tactic(auto)]

mod calls;
mod journals;
mod lines;
mod lookups;

use fnc_journal::NoMemory;
use fnc_queue::Queue;
use fnc_rows::{Reading, Row, print_table};
use std::alloc::{AllocError, Global};
use std::io;

/// The lines of a journal and a queue, as the rows so far made them.
#[derive(Drop)]
struct Tried {
    lines: Vec<Vec<u8>>,
    queue: Queue,
}

/// What is said of a row.
fn said(alloc: Global, tried: &mut Tried, row: &Row) -> Result<String, NoMemory> {
    match row.text(0) {
        "journal" => {
            tried.lines = Vec::new(alloc);
            Ok(String::new(alloc))
        }
        "entry" => {
            tried.lines.push(journals::spelled(alloc, row.bytes(1))?)?;
            Ok(format!(in alloc; "{}", tried.lines.len())?)
        }
        "judge" | "change" | "print" | "number" | "chain" => {
            journals::say(alloc, tried.lines.as_slice(), row)
        }
        "size" => lookups::size(alloc),
        "line" | "torn" => lines::say(alloc, row),
        "queue" => {
            tried.queue = Queue::new(alloc);
            Ok(String::new(alloc))
        }
        _ => calls::say(alloc, &mut tried.queue, row),
    }
}

impl Reading for Tried {
    fn say(&mut self, alloc: Global, row: &Row) -> Result<String, AllocError> {
        said(alloc, self, row).map_err(|_| AllocError)
    }
}

fn main(rt: HostRuntime) -> io::Result<()> {
    let mut tried = Tried {
        lines: Vec::new(rt.alloc()),
        queue: Queue::new(rt.alloc()),
    };
    print_table(&rt, &mut tried)
}
