// The nodes that a device serves, and the option of its agent that carries a node's port.

ghost use Rattle.std.specs.Prelude.{◌≡◌, IfOk, codes, unwrap_or};
ghost use Rattle.fnc_device.specs.Options.{value_of};
ghost use Rattle.fnc_device.specs.Nodes.{nodes, hosts_of, map_of, written_check, check_of_word, argument};
ghost use Rattle.fnc_device.specs.Steps.{Gives};

use crate::fault::DefineFault;
use crate::option::value_of;
use fnc_hosts::{HostFault, check_kind, read_host_list, read_host_map};
use fnc_journal::{Actions, HostCheck, Names, NoMemory, Pair, Pairs, Text};
use std::alloc::Global;

/// The nodes that the options name, and how the device is asked for others.
#[derive(Drop)]
pub struct Nodes {
    pub hosts: Names,
    pub map: Pairs,
    pub check: HostCheck,
}

/// Reads the host list, the host map and the host check, in this order.
pub fn read_nodes(alloc: Global, options: &[Pair], actions: &Actions) -> Result<Nodes, DefineFault>
    ensures { Gives result (nodes options.now actions.now) }
{
    let hosts = hosts(alloc, options)?;
    let map = host_map(alloc, options)?;
    let written = written_check(options)?;
    let check = check_kind(written, &hosts, &map, actions);
    Ok(Nodes { hosts, map, check })
}

fn hosts(alloc: Global, options: &[Pair]) -> Result<Names, DefineFault>
    ensures { Gives result (hosts_of (value_of (codes "pcmk_host_list") options.now)) }
{
    let Some(text) = value_of(options, "pcmk_host_list") else {
        return Ok(Names::new(alloc));
    };
    match read_host_list(alloc, text) {
        Ok(names) => Ok(names),
        Err(HostFault::NoMemory) => Err(DefineFault::NoMemory),
        Err(_) => Err(DefineFault::BadHostList),
    }
}

fn host_map(alloc: Global, options: &[Pair]) -> Result<Pairs, DefineFault>
    ensures { Gives result (map_of (value_of (codes "pcmk_host_map") options.now)) }
{
    let Some(text) = value_of(options, "pcmk_host_map") else {
        return Ok(Pairs::new(alloc));
    };
    match read_host_map(alloc, text) {
        Ok(pairs) => Ok(pairs),
        Err(HostFault::NoMemory) => Err(DefineFault::NoMemory),
        Err(_) => Err(DefineFault::BadHostMap),
    }
}

fn written_check(options: &[Pair]) -> Result<Option<HostCheck>, DefineFault>
    ensures { result ≡ written_check (value_of (codes "pcmk_host_check") options.now) }
{
    match value_of(options, "pcmk_host_check") {
        None => Ok(None),
        Some(word) => check_of_word(word),
    }
}

fn check_of_word(word: &str) -> Result<Option<HostCheck>, DefineFault>
    ensures { result ≡ check_of_word word.now }
{
    match word {
        "dynamic-list" => Ok(Some(HostCheck::DynamicList)),
        "static-list" => Ok(Some(HostCheck::StaticList)),
        "status" => Ok(Some(HostCheck::Status)),
        "none" => Ok(Some(HostCheck::Nothing)),
        _ => Err(DefineFault::BadHostCheck),
    }
}

/// The agent's option that carries the port: the one that is written, unless that is `none`; else
/// the one that the agent's description names; else `port`.
pub fn argument(
    alloc: Global,
    options: &[Pair],
    target: &Option<Text>,
) -> Result<Option<Text>, NoMemory>
    ensures { IfOk result (λ a. a ≡ argument options.now target.now) }
{
    match value_of(options, "pcmk_host_argument") {
        Some("none") => Ok(None),
        Some(text) => Ok(Some(Text::new(alloc, text)?)),
        None => Ok(Some(described(alloc, target)?)),
    }
}

fn described(alloc: Global, target: &Option<Text>) -> Result<Text, NoMemory>
    ensures { IfOk result (λ t. t ≡ unwrap_or target.now (codes "port")) }
{
    match target {
        Some(name) => Text::new(alloc, name.as_str()),
        None => Text::new(alloc, "port"),
    }
}
