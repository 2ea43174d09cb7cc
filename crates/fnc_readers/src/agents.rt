// The texts that a fencer and its agents exchange.

ghost use Rattle.std.specs.Prelude.{◌≡◌, ◌∷◌, IfOk};
ghost use Rattle.fnc_agent_api.specs.OptionLines.{AreSendable};
ghost use Rattle.fnc_agent_api.specs.Options.{pair as pair_of};

use crate::joined::joined_pairs;
use fnc_agent_api::{
    exit_meaning, lists, options_text, plain_description, read_description, read_options,
};
use fnc_journal::{Actions, Description, Exit, Kind, NoMemory, Pair, Pairs, Text};
use fnc_rows::Row;
use std::alloc::Global;
use std::str;

/// What is said of a row: `options|TEXT`, `value|TEXT|NAME`, `listed|OUTPUT|TARGET`, `meaning|ACTION|EXIT`,
/// `description|JSON`, `parameters|JSON` of how many there are, `plain` of an agent of which nothing is told, and
/// `sent` or `sent alone` of the options that are sent.
pub(crate) fn say(alloc: Global, row: &Row) -> Result<String, NoMemory> {
    match row.text(0) {
        "options" => options(alloc, row.bytes(1)),
        "value" => value(alloc, row.bytes(1), row.text(2)),
        "listed" => listed(alloc, row.bytes(1), row.text(2)),
        "meaning" => meaning(alloc, row.text(1), row.text(2)),
        "description" => description(alloc, row.bytes(1)),
        "parameters" => parameters(alloc, row.bytes(1)),
        "plain" => plain(alloc),
        "sent" => sent(alloc),
        _ => sent_alone(alloc),
    }
}

/// The options that a text has, or why it has none.
fn options(alloc: Global, text: &[u8]) -> Result<String, NoMemory> {
    match read_options(alloc, text) {
        Ok(options) => joined_pairs(alloc, options.as_slice()),
        Err(fault) => Ok(format!(in alloc; "{fault}")?),
    }
}

/// The value of an option of a text.
fn value(alloc: Global, text: &[u8], name: &str) -> Result<String, NoMemory> {
    match read_options(alloc, text) {
        Ok(options) => Ok(format!(in alloc; "{:?}", options.get(name).map(|v| v.as_str()))?),
        Err(fault) => Ok(format!(in alloc; "{fault}")?),
    }
}

/// Whether an output lists a node.
fn listed(alloc: Global, output: &[u8], target: &str) -> Result<String, NoMemory> {
    Ok(format!(in alloc; "{}", lists(output, target))?)
}

/// An agent of which nothing is told.
fn plain(alloc: Global) -> Result<String, NoMemory> {
    let agent = plain_description(alloc)?;
    told(alloc, &agent)
}

/// What the exit of an action means.
fn meaning(alloc: Global, action: &str, exit: &str) -> Result<String, NoMemory> {
    let kind = match action {
        "on" => Kind::On,
        "off" => Kind::Off,
        "list" => Kind::List,
        _ => Kind::Status,
    };
    let exit = match exit {
        "signal" => Exit::Signal,
        "no-start" => Exit::NoStart,
        code => Exit::Code(code.parse::<u8>().unwrap_or(0)),
    };
    Ok(format!(in alloc; "{:?}", exit_meaning(kind, exit))?)
}

/// Whether an agent has each of the actions.
fn can(alloc: Global, a: &Actions) -> Result<String, NoMemory> {
    Ok(format!(in alloc; "{} {} {} {} {} ", a.on, a.off, a.reboot, a.list, a.status)?)
}

/// The actions of an agent, its parameters with whether each is required, and the one that takes the node.
fn told(alloc: Global, agent: &Description) -> Result<String, NoMemory> {
    let mut text = can(alloc, &agent.actions)?;
    for parameter in agent.parameters.as_slice() {
        text.push_str(parameter.name.as_str())?;
        text.push_str(if parameter.required { "!/" } else { "/" })?;
    }
    if let Some(name) = &agent.target {
        text.push_str(" ")?;
        text.push_str(name.as_str())?;
    }
    Ok(text)
}

/// What a text tells of an agent, or why it is no description.
fn description(alloc: Global, json: &[u8]) -> Result<String, NoMemory> {
    match read_description(alloc, json) {
        Ok(agent) => told(alloc, &agent),
        Err(fault) => Ok(format!(in alloc; "{fault}")?),
    }
}

/// How many parameters an agent has.
fn parameters(alloc: Global, json: &[u8]) -> Result<String, NoMemory> {
    match read_description(alloc, json) {
        Ok(agent) => Ok(format!(in alloc; "{}", agent.parameters.as_slice().len())?),
        Err(fault) => Ok(format!(in alloc; "{fault}")?),
    }
}

fn pair(alloc: Global, name: &str, value: &str) -> Result<Pair, NoMemory>
    ensures { IfOk result (λ p. p ≡ pair_of name.now value.now) }
{
    Ok(Pair {
        name: Text::new(alloc, name)?,
        value: Text::new(alloc, value)?,
    })
}

/// The options that are sent for the node `n1` at a plug.
fn sent_to(alloc: Global, port: &Pair, own: &Pairs) -> Result<String, NoMemory>
    requires { AreSendable (port.now ∷ own.now) }
{
    let text = options_text(alloc, "off", Some("n1"), Some(port), own)?;
    Ok(String::from_str(alloc, str::from_utf8(text.as_slice()).unwrap_or(""))?)
}

/// The options that are sent for the node `n1` at plug `2,3`, to an agent with options of its own.
fn sent(alloc: Global) -> Result<String, NoMemory> {
    let mut own = Pairs::new(alloc);
    own.push(pair(alloc, "ip", " 10.0.0.1#=")?)?;
    own.push(pair(alloc, "state", "")?)?;
    let port = pair(alloc, "plug", "2,3")?;
    sent_to(alloc, &port, &own)
}

/// The options that are sent for no node.
fn sent_alone(alloc: Global) -> Result<String, NoMemory> {
    let none = Pairs::new(alloc);
    let text = options_text(alloc, "list", None, None, &none)?;
    Ok(String::from_str(alloc, str::from_utf8(text.as_slice()).unwrap_or(""))?)
}
