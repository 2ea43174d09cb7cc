// A whole run of the agent.

ghost use Rattle.std.specs.Prelude.{◌≡◌, Ok, IfOk};
ghost use Rattle.fnc_switch.specs.Agents as agents;
ghost use Rattle.fnc_switch.specs.Runs as runs;

use crate::acting::agent;
use crate::switch::{Switch, SwitchFault, read_switch, switch_text};
use fnc_agent_api::{OptionFault, Options, read_options};
use fnc_journal::{Bytes, NoMemory};
use std::alloc::Global;

/// How a run of the agent ended: its exit status, what it printed, and the text of its switch after it.
#[derive(Debug, Drop)]
pub struct AgentRun {
    pub status: u8,
    pub output: Bytes,
    pub state: Bytes,
}

/// Runs the agent on what it is sent and on the text of its switch. Where either cannot be read the status is 1,
/// nothing is printed, and the text stays byte for byte.
pub fn run_agent(alloc: Global, input: &[u8], state: &[u8]) -> Result<AgentRun, NoMemory>
    ensures { IfOk result (λ r. r ≡ runs.ran input.now state.now) }
{
    match read_options(alloc, input) {
        Ok(options) => run_with(alloc, &options, state),
        Err(OptionFault::NoMemory) => Err(NoMemory),
        Err(_) => unread(alloc, state),
    }
}

/// A run that could not read what it was given.
fn unread(alloc: Global, state: &[u8]) -> Result<AgentRun, NoMemory>
    ensures { IfOk result (λ r. r ≡ runs.unread state.now) }
{
    Ok(AgentRun {
        status: 1,
        output: Bytes::empty(alloc),
        state: Bytes::new(alloc, state)?,
    })
}

fn run_with(alloc: Global, options: &Options, state: &[u8]) -> Result<AgentRun, NoMemory>
    ensures { IfOk result (λ r. r ≡ runs.ran_with (Ok options.now) state.now) }
{
    match read_switch(alloc, state) {
        Ok(mut switch) => run_on(alloc, options, &mut switch),
        Err(SwitchFault::NoMemory) => Err(NoMemory),
        Err(SwitchFault::BadLine { .. }) => unread(alloc, state),
    }
}

fn run_on(alloc: Global, options: &Options, switch: &mut Switch) -> Result<AgentRun, NoMemory>
    ensures { IfOk result (λ r. r ≡ runs.written (agents.answers options.now switch.old)) }
{
    let acted = agent(alloc, options, switch)?;
    let state = switch_text(alloc, switch)?;
    Ok(AgentRun {
        status: acted.status,
        output: acted.output,
        state,
    })
}
