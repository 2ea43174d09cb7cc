// What the readers read, line by line: a table of texts on standard input, each printed with what is said of it.
#![tactic(auto)]

mod agents;
mod commands;
mod devices;
mod hosts;
mod joined;
mod pieces;
mod switches;

use fnc_journal::NoMemory;
use fnc_rows::{Reading, Row, print_table};
use std::alloc::{AllocError, Global};
use std::io;

/// The readers of text, each by the first word of a row.
#[derive(Drop)]
struct Readers;

/// What is said of a row.
fn said(alloc: Global, row: &Row) -> Result<String, NoMemory> {
    match row.text(0) {
        "duration" | "number" | "word" | "name" | "text" | "bytes" => pieces::say(alloc, row),
        "list" | "map" | "list size" | "map size" | "check" => hosts::say(alloc, row),
        "part" | "device" | "size" | "many" => devices::say(alloc, row),
        "timed" | "live" | "long" | "exit" => commands::say(alloc, row),
        "switch" | "plugs" | "agent" => switches::say(alloc, row),
        _ => agents::say(alloc, row),
    }
}

impl Reading for Readers {
    fn say(&mut self, alloc: Global, row: &Row) -> Result<String, AllocError> {
        said(alloc, row).map_err(|_| AllocError)
    }
}

fn main(rt: HostRuntime) -> io::Result<()> {
    print_table(&rt, &mut Readers)
}
