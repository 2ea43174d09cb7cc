// What an agent is sent on its standard input.

ghost use Rattle.std.specs.Prelude.{◌≡◌, ◌++◌, Some, filter, option_to_list, IfOk, IsTrue};
ghost use Rattle.std.specs.Option.{option_copied};
ghost use Rattle.fnc_journal.specs.EntryBounds.{is_bounded};
ghost use Rattle.fnc_journal.specs.Names.{is_name};
ghost use Rattle.fnc_agent_api.specs.OptionLines.{AreSendable};
ghost use Rattle.fnc_jobs.specs.Inputs.{input, is_sent, node_sent, port_in, port_sent};

use fnc_agent_api::options_text;
use fnc_journal::{Bytes, Definition, Kind, NoMemory, Pair, Pairs, Text, has_pair};
use std::alloc::Global;

/// What an agent is sent for an action on a node: the action's word, the node and its port, and the device's own
/// options. A list is of all nodes: it is sent neither a node nor a port.
pub(crate) fn input_of(
    alloc: Global,
    definition: &Definition,
    kind: Kind,
    target: &str,
) -> Result<Bytes, NoMemory>
    requires bounded { IsTrue (is_bounded definition.now) }
    requires named { IsTrue (is_name target.now) }
    ensures { IfOk result (λ text. text ≡ input definition.now kind target.now) }
{
    let word = definition.allowed(kind).word.as_str();
    let port = port_option(alloc, definition, kind, target)?;
    let own = sent_options(alloc, definition.own.as_slice())?;
    options_text(alloc, word, node_name(kind, target), port.as_ref(), &own)
}

/// The node that is named to an agent.
fn node_name(kind: Kind, target: &str) -> Option<&str>
    ensures { option_copied result ≡ node_sent kind target.now }
{
    match kind {
        Kind::List => None,
        _ => Some(target),
    }
}

/// The option that carries the node's port. A list is sent none.
fn port_option(
    alloc: Global,
    definition: &Definition,
    kind: Kind,
    target: &str,
) -> Result<Option<Pair>, NoMemory>
    ensures { IfOk result (λ port. port ≡ port_sent definition.now kind target.now) }
{
    match (kind, &definition.argument) {
        (Kind::List, _) | (_, None) => Ok(None),
        (_, Some(name)) => port_in(alloc, definition, name.as_str(), target),
    }
}

/// The node's port in the option of this name, where the device does not set that by itself.
fn port_in(
    alloc: Global,
    definition: &Definition,
    name: &str,
    target: &str,
) -> Result<Option<Pair>, NoMemory>
    ensures { IfOk result (λ port. port ≡ port_in definition.now target.now (Some name.now)) }
{
    if has_pair(definition.own.as_slice(), name) {
        return Ok(None);
    }
    Ok(Some(Pair {
        name: Text::new(alloc, name)?,
        value: Text::new(alloc, definition.port_of(target))?,
    }))
}

/// Those of the device's own options that are sent.
fn sent_options(alloc: Global, own: &[Pair]) -> Result<Pairs, NoMemory>
    ensures { IfOk result (λ sent. sent ≡ filter (λ o. is_sent o.name) own.now) }
{
    let mut sent = Pairs::new(alloc);
    for option in own {
        if is_sent(option.name.as_str()) {
            sent.push(Pair {
                name: Text::new(alloc, option.name.as_str())?,
                value: Text::new(alloc, option.value.as_str())?,
            })?;
        }
    }
    Ok(sent)
}

/// Whether an own option is sent: the fencer itself says the action and the node.
fn is_sent(name: &str) -> bool
    ensures { result ≡ is_sent name.now }
{
    name != "action" && name != "nodename"
}
