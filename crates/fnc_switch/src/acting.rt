// The agent of a switch.

ghost use Rattle.std.specs.Prelude.{◌≡◌, [], Some, IfOk, OnErr};
ghost use Rattle.fnc_switch.specs.Agents as agents;

use crate::action::{Action, Operation};
use crate::listing::listing;
use crate::references::asked;
use crate::status::status;
use crate::switch::Switch;
use fnc_agent_api::Options;
use fnc_journal::{Bytes, NoMemory};
use std::alloc::Global;

/// What an agent did beside what it did to its switch: the exit status, and what it printed.
#[derive(Debug, Drop)]
pub struct Acted {
    pub status: u8,
    pub output: Bytes,
}

/// An agent that printed nothing.
fn silent(alloc: Global, status: u8) -> Acted
    ensures status { result.status ≡ status }
    ensures output { result.output ≡ [] }
{
    Acted {
        status,
        output: Bytes::empty(alloc),
    }
}

fn list(alloc: Global, options: &Options, switch: &Switch) -> Result<Acted, NoMemory>
    ensures { IfOk result (λ a. agents.acts Action.List options.now switch.now
        ≡ record { status = a.status; output = a.output; plugs = switch.now }) }
{
    Ok(Acted {
        status: 0,
        output: listing(alloc, switch.as_slice())?,
    })
}

fn status_asked(options: &Options, switch: &Switch) -> u8
    ensures { agents.acts Action.Status options.now switch.now ≡ agents.silent result switch.now }
{
    match asked(options) {
        Some(value) => status(switch.as_slice(), value.as_str()),
        None => 1,
    }
}

fn operate_asked(operation: Operation, options: &Options, switch: &mut Switch) -> u8
    ensures { agents.acts (Action.Operate operation) options.now switch.old ≡ agents.silent result switch.new }
{
    match asked(options) {
        Some(value) => switch.operate(operation, value.as_str()),
        None => 1,
    }
}

/// Does an action on the plugs that the options mean: those of the option `port`, else of `plug`. Its value is cut at
/// commas; each part means the first plug of that name, else the first of that alias. Without either option `on`,
/// `off`, `reboot` and `status` have status 1. Only `list` needs memory, and without it nothing changes.
pub fn act(
    alloc: Global,
    action: Action,
    options: &Options,
    switch: &mut Switch,
) -> Result<Acted, NoMemory>
    ensures ok { IfOk result (λ a. agents.acts action options.now switch.old
        ≡ record { status = a.status; output = a.output; plugs = switch.new }) }
    ensures unchanged { OnErr result (switch.new ≡ switch.old) }
    ensures memory { OnErr result (action ≡ Action.List) }

    // after a success of `on`, `off` or `reboot` all plugs that are meant are in its state
    ensures leaves { IfOk result (λ a. a.status ≡ 0 → agents.Leaves action options.now switch.new) }
{
    match action {
        Action::Operate(operation) => Ok(silent(alloc, operate_asked(operation, options, switch))),
        Action::Status => Ok(silent(alloc, status_asked(options, switch))),
        Action::List => list(alloc, options, switch),
        Action::Monitor => Ok(silent(alloc, 0)),
    }
}

fn asked_action(options: &Options) -> Option<Action>
    ensures { result ≡ agents.action_among options.now }
{
    Action::read(options.get("action")?.as_str())
}

/// What a fence agent of a switch does that is sent these options. `on`, `off` and `reboot` change nothing and have
/// status 1 where a part of the value means no plug. Else, where a meant plug has failures left, the first such plug
/// loses one and the status is 1; else all are switched and it is 0. `status` has 0 where each part means a plug that
/// is on, 2 where each means one that is off, else 1. `list` prints the plugs, and `monitor` does nothing. No action
/// and any other have status 1.
pub fn agent(alloc: Global, options: &Options, switch: &mut Switch) -> Result<Acted, NoMemory>
    ensures ok { IfOk result (λ a. agents.answers options.now switch.old
        ≡ record { status = a.status; output = a.output; plugs = switch.new }) }
    ensures unchanged { OnErr result (switch.new ≡ switch.old) }
    ensures memory { OnErr result (agents.action_among options.now ≡ Some Action.List) }
{
    match asked_action(options) {
        Some(action) => act(alloc, action, options, switch),
        None => Ok(silent(alloc, 1)),
    }
}
