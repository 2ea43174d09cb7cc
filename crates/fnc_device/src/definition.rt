// What the options of a device define.

ghost use Rattle.std.specs.Prelude.{◌≡◌, IfOk, IsTrue};
ghost use Rattle.fnc_journal.specs.Bounds.{IsBounded};
ghost use Rattle.fnc_journal.specs.EntryBounds.{is_described};
ghost use Rattle.fnc_device.specs.Definitions.{carries_port, is_missing, all_given, define};
ghost use Rattle.fnc_device.specs.Steps.{Gives};

use crate::allowance::read_allowances;
use crate::fault::DefineFault;
use crate::nodes::{argument, read_nodes};
use crate::option::{check_options, own_options};
use crate::schedule::read_schedule;
use crate::time::read_time;
use fnc_journal::{Definition, Description, Pair, Pairs, Parameter, Text, has_pair};
use std::alloc::Global;

/// The definition of a device by its options, `name=value` pairs as an operator gives them, and by
/// the description of its agent. The options whose names begin with `pcmk_`, and `priority`, are the
/// fencer's, after the manual page pacemaker-fenced(7); all others are passed on to the agent.
/// Faults are looked for in this order: the options as such, the host list, the host map and the host
/// check, the base and the max of the delay, the limit, the priority, the timeout and the retries of
/// on, off, reboot, list and status in turn, `pcmk_list_keep`, and the parameters that are missing.
pub fn define(
    alloc: Global,
    options: &Pairs,
    description: &Description,
) -> Result<Definition, DefineFault>
    ensures value { Gives result (define options.now description.now) }
    ensures bounded { IsTrue (is_described description.now) → IfOk result IsBounded }
{
    read_definition(alloc, options.as_slice(), description)
}

fn read_definition(
    alloc: Global,
    options: &[Pair],
    description: &Description,
) -> Result<Definition, DefineFault>
    ensures { Gives result (define options.now description.now) }
{
    check_options(alloc, options)?;
    let nodes = read_nodes(alloc, options, &description.actions)?;
    let schedule = read_schedule(alloc, options)?;
    let allowances = read_allowances(alloc, options)?;
    let keep = read_time(alloc, options, "pcmk_list_keep", 0)?;
    let argument = argument(alloc, options, &description.target)?;
    check_given(alloc, options, &argument, description.parameters.as_slice())?;
    let own = own_options(alloc, options)?;
    Ok(Definition {
        actions: description.actions,
        check: nodes.check,
        hosts: nodes.hosts,
        map: nodes.map,
        argument,
        cap: schedule.cap,
        priority: schedule.priority,
        base: schedule.base,
        max: schedule.max,
        keep,
        on: allowances.on,
        off: allowances.off,
        reboot: allowances.reboot,
        list: allowances.list,
        status: allowances.status,
        own,
    })
}

/// Looks for the first parameter that is required and neither given nor sent by the fencer.
fn check_given(
    alloc: Global,
    options: &[Pair],
    argument: &Option<Text>,
    parameters: &[Parameter],
) -> Result<(), DefineFault>
    ensures { Gives result (all_given options.now argument.now parameters.now) }
{
    for parameter in parameters {
        if is_missing(options, argument, parameter) {
            let name = Text::new(alloc, parameter.name.as_str())?;
            return Err(DefineFault::MissingParameter { name });
        }
    }
    Ok(())
}

fn is_missing(options: &[Pair], argument: &Option<Text>, parameter: &Parameter) -> bool
    ensures { result ≡ is_missing options.now argument.now parameter.now }
{
    let name = parameter.name.as_str();
    parameter.required
        && !has_pair(options, name)
        && !carries_port(argument, name)
        && name != "action"
        && name != "nodename"
}

fn carries_port(argument: &Option<Text>, name: &str) -> bool
    ensures { result ≡ carries_port argument.now name.now }
{
    match argument {
        Some(carrier) => carrier.is(name),
        None => false,
    }
}
