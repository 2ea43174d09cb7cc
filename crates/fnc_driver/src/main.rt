// Sessions of calls of the core: a table on standard input. Each row is an input of the core, and what is said of it is
// what the journal gained by it: its own entry, and the starts and replies that the core added.
#![tactic(auto)]

mod driver;
mod plans;

use fnc_core::Core;
use fnc_journal::NoMemory;
use fnc_journal::limits::LEAST_JOURNAL;
use fnc_rows::{Reading, Row, print_table};
use std::alloc::{AllocError, Global};
use std::io;

/// The core, as the rows so far left it.
#[derive(Drop)]
struct Driven {
    core: Core,
}

/// What is said of a row: `session|NAME` begins a core; of any other row, the words of its kind, the entry of the input,
/// and of a request its plan.
fn said(alloc: Global, driven: &mut Driven, row: &Row) -> Result<String, NoMemory> {
    if row.text(0) == "session" {
        driven.core = Core::with_limit(alloc, LEAST_JOURNAL)?;
        return Ok(String::new(alloc));
    }
    driver::say(alloc, &mut driven.core, row)
}

impl Reading for Driven {
    fn say(&mut self, alloc: Global, row: &Row) -> Result<String, AllocError> {
        said(alloc, self, row).map_err(|_| AllocError)
    }
}

fn main(rt: HostRuntime) -> io::Result<()> {
    let core = Core::with_limit(rt.alloc(), LEAST_JOURNAL).map_err(|_| AllocError)?;
    print_table(&rt, &mut Driven { core })
}
