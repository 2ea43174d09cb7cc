// The options of a device: what they define, or the first fault that they have.

use crate::joined::{joined, joined_pairs, pairs};
use fnc_device::{DefineFault, define};
use fnc_journal::{
    Actions, Definition, Description, Kind, NoMemory, Pair, Pairs, Parameter, Parameters, Text,
};
use fnc_rows::Row;
use std::alloc::Global;

/// What is said of a row: `part|NAME|VALUE|..` of the part that the first of the options is for,
/// `device|REQUIRED|TARGET|NAME|VALUE|..` of the nodes, the action `off` and the agent's options, for an agent that
/// requires parameters and takes the node by one, `size|NAME|VALUE|..` of how many hosts and options of the agent there
/// are, and `many|PIECE|COUNT` of so many options, whose names grow by a piece.
pub(crate) fn say(alloc: Global, row: &Row) -> Result<String, NoMemory> {
    match row.text(0) {
        "part" => by_options(alloc, row),
        "device" => described(alloc, row),
        "size" => size(alloc, &pairs(alloc, row, 1)?),
        _ => size_of_many(alloc, row.text(1), row.number(2)),
    }
}

/// An agent that can tell a status, and requires these parameters, with commas between.
fn agent(alloc: Global, required: &str, target: Option<Text>) -> Result<Description, NoMemory> {
    let mut parameters = Parameters::new(alloc);
    for name in required.split(',') {
        if !name.is_empty() {
            parameters.push(Parameter {
                name: Text::new(alloc, name)?,
                required: true,
            })?;
        }
    }
    let actions = Actions {
        on: true,
        off: true,
        reboot: false,
        list: false,
        status: true,
    };
    Ok(Description {
        actions,
        parameters,
        target,
    })
}

fn argument(definition: &Definition) -> &str {
    match &definition.argument {
        Some(name) => name.as_str(),
        None => "none",
    }
}

/// The part of a definition that an option is for.
fn part(alloc: Global, d: &Definition, name: &str) -> Result<String, NoMemory> {
    Ok(match name {
        "pcmk_action_limit" => format!(in alloc; "{:?}", d.cap)?,
        "priority" => format!(in alloc; "{}", d.priority)?,
        "pcmk_off_retries" => format!(in alloc; "{}", d.off.tries)?,
        "pcmk_off_timeout" => format!(in alloc; "{}", d.off.time)?,
        "pcmk_list_keep" => format!(in alloc; "{}", d.keep)?,
        "pcmk_delay_base" => format!(in alloc; "{}", d.delay_of(Kind::Off, "n1", 7_003))?,
        "pcmk_host_list" | "pcmk_host_map" | "pcmk_host_check" => {
            format!(in alloc; "{:?}", d.check)?
        }
        "pcmk_host_argument" => String::from_str(alloc, argument(d))?,
        _ => joined_pairs(alloc, d.own.as_slice())?,
    })
}

/// What options define where the first of them is looked at, or their fault.
fn by_options(alloc: Global, row: &Row) -> Result<String, NoMemory> {
    let options = pairs(alloc, row, 1)?;
    let agent = agent(alloc, "", None)?;
    part_by(alloc, &options, &agent, row.text(1))
}

/// The part of a device that an option is for, or why options define none.
fn part_by(
    alloc: Global,
    options: &Pairs,
    agent: &Description,
    name: &str,
) -> Result<String, NoMemory> {
    match define(alloc, options, agent) {
        Ok(definition) => part(alloc, &definition, name),
        Err(fault) => refused(alloc, &fault),
    }
}

/// Why options define no device.
fn refused(alloc: Global, fault: &DefineFault) -> Result<String, NoMemory> {
    Ok(format!(in alloc; "{fault}")?)
}

/// What is defined of the nodes, of the action `off` and of the agent's options.
fn whole(alloc: Global, d: &Definition) -> Result<String, NoMemory> {
    let hosts = joined(alloc, d.hosts.as_slice())?;
    let map = joined_pairs(alloc, d.map.as_slice())?;
    let own = joined_pairs(alloc, d.own.as_slice())?;
    let (off, argument) = (d.off.word.as_str(), argument(d));
    Ok(format!(in alloc; "{:?} {hosts} {map} {argument} {off} {own}", d.check)?)
}

/// What is defined for an agent of which more is told, or the fault.
fn described(alloc: Global, row: &Row) -> Result<String, NoMemory> {
    let options = pairs(alloc, row, 3)?;
    let target = match row.text(2) {
        "" => None,
        name => Some(Text::new(alloc, name)?),
    };
    let agent = agent(alloc, row.text(1), target)?;
    whole_by(alloc, &options, &agent)
}

/// What options define of the nodes, of the action `off` and of the agent's options, or why they define nothing.
fn whole_by(alloc: Global, options: &Pairs, agent: &Description) -> Result<String, NoMemory> {
    match define(alloc, options, agent) {
        Ok(definition) => whole(alloc, &definition),
        Err(fault) => refused(alloc, &fault),
    }
}

/// How many hosts and options of the agent are defined, or the fault.
fn size(alloc: Global, options: &Pairs) -> Result<String, NoMemory> {
    let agent = agent(alloc, "", None)?;
    size_by(alloc, options, &agent)
}

/// How many hosts and options of the agent are defined, or the fault; of an option that is bad only that it is one.
fn size_by(alloc: Global, options: &Pairs, agent: &Description) -> Result<String, NoMemory> {
    match define(alloc, options, agent) {
        Ok(definition) => sizes(alloc, &definition),
        Err(fault) => named(alloc, &fault),
    }
}

fn sizes(alloc: Global, d: &Definition) -> Result<String, NoMemory> {
    Ok(format!(in alloc; "{} {}", d.hosts.as_slice().len(), d.own.as_slice().len())?)
}

fn named(alloc: Global, fault: &DefineFault) -> Result<String, NoMemory> {
    match fault {
        DefineFault::BadOption { .. } => Ok(String::from_str(alloc, "an option")?),
        _ => refused(alloc, fault),
    }
}

/// So many options, whose names grow by a piece.
fn size_of_many(alloc: Global, piece: &str, count: u64) -> Result<String, NoMemory> {
    let mut options = Pairs::new(alloc);
    let mut name = String::new(alloc);
    for _ in 0..count {
        name.push_str(piece)?;
        options.push(Pair {
            name: Text::new(alloc, name.as_str())?,
            value: Text::new(alloc, "1")?,
        })?;
    }
    size(alloc, &options)
}
