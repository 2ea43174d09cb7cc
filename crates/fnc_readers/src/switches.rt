// Switches, and runs of their agent.

use fnc_journal::{Bytes, NoMemory};
use fnc_rows::Row;
use fnc_switch::{AgentRun, Switch, SwitchFault, read_switch, run_agent, switch_text};
use std::alloc::Global;
use std::str;

/// What is said of a row: `switch|TEXT` of a switch, `plugs|COUNT|LINE` of a switch with so many lines, or
/// `agent|OPTIONS|TEXT` of a run.
pub(crate) fn say(alloc: Global, row: &Row) -> Result<String, NoMemory> {
    match row.text(0) {
        "switch" => switch(alloc, row.bytes(1)),
        "plugs" => plugs(alloc, row.number(1), row.text(2)),
        _ => agent(alloc, row.bytes(1), row.bytes(2)),
    }
}

fn text(bytes: &Bytes) -> &str {
    str::from_utf8(bytes.as_slice()).unwrap_or("no text")
}

/// The text of the switch that a text is, or why it is none.
fn switch(alloc: Global, bytes: &[u8]) -> Result<String, NoMemory> {
    match read_switch(alloc, bytes) {
        Ok(switch) => written(alloc, &switch),
        Err(fault) => refused(alloc, fault),
    }
}

/// How many plugs a switch has, and its text unless it is long.
fn written(alloc: Global, switch: &Switch) -> Result<String, NoMemory> {
    let bytes = switch_text(alloc, switch)?;
    let count = switch.as_slice().len();
    Ok(match bytes.as_slice().len() {
        0..=100 => format!(in alloc; "{count}: {}", text(&bytes))?,
        size => format!(in alloc; "{count}: {size} bytes")?,
    })
}

/// The switch of so many lines.
fn plugs(alloc: Global, count: u64, line: &str) -> Result<String, NoMemory> {
    let mut lines = String::new(alloc);
    for _ in 0..count {
        lines.push_str(line)?;
        lines.push('\n')?;
    }
    switch(alloc, lines.as_bytes())
}

fn refused(alloc: Global, fault: SwitchFault) -> Result<String, NoMemory> {
    Ok(format!(in alloc; "{fault}")?)
}

/// The status of a run, what it printed, and the text of the switch after it.
fn agent(alloc: Global, input: &[u8], state: &[u8]) -> Result<String, NoMemory> {
    let run = run_agent(alloc, input, state)?;
    told(alloc, &run)
}

fn told(alloc: Global, run: &AgentRun) -> Result<String, NoMemory> {
    let (output, state) = (text(&run.output), text(&run.state));
    Ok(format!(in alloc; "{} [{output}] {state}", run.status)?)
}
