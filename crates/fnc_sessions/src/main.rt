// Sessions of lines: what each writes and how it ends, on sources and sinks that wait and fail and on lines that are
// cut, texts of journals that are audited, what agents are run with, what sources and sinks give and hold, and what is
// printed of pieces and of a journal: a table on standard input, each row printed with what is said of it.
#![tactic(auto)]

mod audited;
mod failing;
mod gives;
mod holds;
mod jobs;
mod printed;
mod reader;
mod replayed;
mod shown;
mod writer;

use fnc_command::Mode;
use fnc_desk::Desk;
use fnc_journal::NoMemory;
use fnc_journal::limits::LEAST_JOURNAL;
use fnc_rows::{Reading, Row, print_table};
use std::alloc::{AllocError, Global};
use std::io;

/// Sessions, sources and sinks, each by the first word of a row; and a desk, as the rows so far left it.
#[derive(Drop)]
struct Sessions {
    desk: Desk,
}

/// What is said of a row.
fn said(alloc: Global, desk: &mut Desk, row: &Row) -> Result<String, NoMemory> {
    match row.text(0) {
        "replay" | "stream" => replayed::say(alloc, row),
        "audit" | "history" | "passes" => audited::say(alloc, row),
        "failing polls" | "torn writes" | "cut lines" | "idle" => failing::say(alloc, row),
        "timed" | "live" | "line" | "finish" => jobs::say(alloc, desk, row),
        "source" | "reader" => gives::say(alloc, row),
        "sink" | "torn sink" | "failing flushes" | "writer" => holds::say(alloc, row),
        _ => printed::say(alloc, row),
    }
}

impl Reading for Sessions {
    fn say(&mut self, alloc: Global, row: &Row) -> Result<String, AllocError> {
        said(alloc, &mut self.desk, row).map_err(|_| AllocError)
    }
}

fn main(rt: HostRuntime) -> io::Result<()> {
    let desk = Desk::with_limit(rt.alloc(), LEAST_JOURNAL, Mode::Timed).map_err(|_| AllocError)?;
    print_table(&rt, &mut Sessions { desk })
}
