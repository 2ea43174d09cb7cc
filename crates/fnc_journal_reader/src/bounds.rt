// The bounds of what a journal's text holds: of a device, only what options can define.

ghost use Rattle.std.specs.Prelude.{◌≡◌, ◌==◌, ◌-◌, nat_eq, codes};
ghost use Rattle.std.specs.List.{ends_with, list_all, list_any};
ghost use Rattle.fnc_journal.specs.Names as Names;
ghost use Rattle.fnc_journal.specs.Bounds as Bounds;
ghost use Rattle.fnc_journal.specs.EntryBounds as EntryBounds;

use fnc_journal::limits::{
    DAY, GREATEST_PRIORITY, LONGEST_NAME, LONGEST_VALUE, MOST_DEVICES_OF_LEVEL, MOST_HOSTS,
    MOST_LEVELS_OF_TARGET, MOST_OPTIONS, MOST_PARAMETERS, MOST_RUNS, MOST_TRIES,
};
use fnc_journal::{
    Allowed, Base, Confirmation, Definition, Delay, Described, Description, Entry, Event,
    LevelCleared, LevelSet, LevelTarget, Pair, Parameter, Registration, Request, Text,
    is_option_name, is_option_value, is_own, is_value_byte,
};
use fnc_text::is_name;

/// Whether an entry is within the bounds of a journal's text: only such an entry is read.
pub fn is_within(entry: &Entry) -> bool
    ensures { result ≡ EntryBounds.is_within entry.now }
{
    match &entry.event {
        Event::Device(device) => is_device(device.registration.get()),
        Event::Level(level) => is_level(level),
        Event::LevelGone(level) => is_level_gone(level),
        Event::Agent(agent) => is_agent(agent),
        Event::Ask(request) => is_request(request.get()),
        Event::Confirm(confirmation) => is_confirmation(confirmation),
        _ => true,
    }
}

fn is_entry_byte(byte: u8) -> bool
    ensures { result ≡ Bounds.is_entry_byte byte }
{
    is_value_byte(byte) && byte != b';' && byte != b' '
}

fn is_host_byte(byte: u8) -> bool
    ensures { result ≡ Bounds.is_host_byte byte }
{
    is_value_byte(byte) && byte != b',' && byte != b';' && byte != b' '
}

fn is_node_byte(byte: u8) -> bool
    ensures { result ≡ Bounds.is_node_byte byte }
{
    is_entry_byte(byte) && byte != b':'
}

fn are_entry_bytes(text: &[u8]) -> bool
    ensures { result ≡ list_all Bounds.is_entry_byte text.now }
{
    text.iter().all(|b| is_entry_byte(*b))
}

fn are_host_bytes(text: &[u8]) -> bool
    ensures { result ≡ list_all Bounds.is_host_byte text.now }
{
    text.iter().all(|b| is_host_byte(*b))
}

fn are_node_bytes(text: &[u8]) -> bool
    ensures { result ≡ list_all Bounds.is_node_byte text.now }
{
    text.iter().all(|b| is_node_byte(*b))
}

fn is_host(name: &[u8]) -> bool
    ensures { result ≡ Bounds.is_host name.now }
{
    !name.is_empty() && name.len() <= LONGEST_NAME && are_host_bytes(name)
}

fn is_node(name: &[u8]) -> bool
    ensures { result ≡ Bounds.is_node name.now }
{
    !name.is_empty() && name.len() <= LONGEST_NAME && are_node_bytes(name)
}

fn is_port(port: &[u8]) -> bool
    ensures { result ≡ Bounds.is_text (LONGEST_VALUE - 2) Bounds.is_entry_byte port.now }
{
    !port.is_empty() && port.len() <= LONGEST_VALUE - 2 && are_entry_bytes(port)
}

fn is_host_pair(pair: &Pair) -> bool
    ensures { result ≡ Bounds.is_host_pair pair.now }
{
    is_node(pair.name.as_str().as_bytes()) && is_port(pair.value.as_str().as_bytes())
}

fn is_carrier(name: &Option<Text>) -> bool
    ensures { result ≡ Bounds.is_carrier name.now }
{
    match name {
        Some(name) => is_option_name(name.as_str()),
        None => true,
    }
}

fn is_cap(cap: Option<u32>) -> bool
    ensures { result ≡ Bounds.is_cap cap }
{
    match cap {
        Some(limit) => limit > 0 && limit <= MOST_RUNS,
        None => true,
    }
}

fn is_priority(priority: i32) -> bool
    ensures { result ≡ Bounds.is_priority priority }
{
    priority.unsigned_abs() <= GREATEST_PRIORITY
}

fn is_delay(delay: &Delay) -> bool
    ensures { result ≡ Bounds.is_delay delay.now }
{
    is_node(delay.name.as_str().as_bytes()) && delay.ms <= DAY
}

fn are_delays(delays: &[Delay]) -> bool
    ensures { result ≡ list_all Bounds.is_delay delays.now }
{
    delays.iter().all(|d| is_delay(d))
}

fn is_base(base: &Base) -> bool
    ensures { result ≡ Bounds.is_base base.now }
{
    match base {
        Base::Fixed(ms) => *ms <= DAY,
        Base::ByNode(delays) => {
            !delays.as_slice().is_empty()
                && delays.as_slice().len() <= MOST_HOSTS
                && are_delays(delays.as_slice())
        }
    }
}

fn is_allowed(allowed: &Allowed) -> bool
    ensures { result ≡ Bounds.is_allowed allowed.now }
{
    let word = allowed.word.as_str();
    !word.is_empty()
        && is_option_value(word)
        && allowed.time > 0
        && allowed.time <= DAY
        && allowed.tries > 0
        && allowed.tries <= MOST_TRIES
}

fn ends_with_space(text: &[u8]) -> bool
    ensures { result ≡ ends_with nat_eq text.now (codes " ") }
{
    text.ends_with(b" ")
}

fn is_own_option(option: &Pair) -> bool
    ensures { result ≡ Bounds.is_own_option option.now }
{
    is_option_name(option.name.as_str())
        && is_option_value(option.value.as_str())
        && is_own(option.name.as_str())
        && !ends_with_space(option.value.as_str().as_bytes())
}

fn are_hosts(names: &[Text]) -> bool
    ensures { result ≡ list_all Bounds.is_host names.now }
{
    names.iter().all(|n| is_host(n.as_str().as_bytes()))
}

fn are_host_pairs(pairs: &[Pair]) -> bool
    ensures { result ≡ list_all Bounds.is_host_pair pairs.now }
{
    pairs.iter().all(|p| is_host_pair(p))
}

fn are_own_options(options: &[Pair]) -> bool
    ensures { result ≡ list_all Bounds.is_own_option options.now }
{
    options.iter().all(|o| is_own_option(o))
}

fn are_names(names: &[Text]) -> bool
    ensures { result ≡ list_all Names.is_name names.now }
{
    names.iter().all(|n| is_name(n.as_str()))
}

fn are_nodes(definition: &Definition) -> bool
    ensures { result ≡ EntryBounds.are_nodes definition.now }
{
    let hosts = definition.hosts.as_slice();
    let map = definition.map.as_slice();
    definition.actions.off
        && hosts.len() <= MOST_HOSTS
        && are_hosts(hosts)
        && map.len() <= MOST_HOSTS
        && are_host_pairs(map)
        && is_carrier(&definition.argument)
}

fn are_limits(definition: &Definition) -> bool
    ensures { result ≡ EntryBounds.are_limits definition.now }
{
    let own = definition.own.as_slice();
    is_cap(definition.cap)
        && is_priority(definition.priority)
        && is_base(&definition.base)
        && definition.max <= DAY
        && definition.keep <= DAY
        && own.len() <= MOST_OPTIONS
        && are_own_options(own)
}

fn are_allowed(definition: &Definition) -> bool
    ensures { result ≡ EntryBounds.are_allowed definition.now }
{
    is_allowed(&definition.on)
        && is_allowed(&definition.off)
        && is_allowed(&definition.reboot)
        && is_allowed(&definition.list)
        && is_allowed(&definition.status)
}

fn is_device(registration: &Registration) -> bool
    ensures { result ≡ EntryBounds.is_device registration.now }
{
    is_name(registration.name.as_str())
        && is_agent_name(registration.agent.as_str())
        && is_bounded(&registration.definition)
}

fn is_bounded(definition: &Definition) -> bool
    ensures { result ≡ EntryBounds.is_bounded definition.now }
{
    are_nodes(definition) && are_limits(definition) && are_allowed(definition)
}

fn has_equals(text: &[u8]) -> bool
    ensures { result ≡ list_any (λ b. b == 61) text.now }
{
    text.iter().any(|b| *b == b'=')
}

fn is_agent_name(name: &str) -> bool
    ensures { result ≡ EntryBounds.is_agent_name name.now }
{
    is_name(name) && !has_equals(name.as_bytes())
}

fn is_parameter(parameter: &Parameter) -> bool
    ensures { result ≡ EntryBounds.is_parameter parameter.now }
{
    is_option_name(parameter.name.as_str())
}

fn are_parameters(parameters: &[Parameter]) -> bool
    ensures { result ≡ list_all EntryBounds.is_parameter parameters.now }
{
    parameters.iter().all(|p| is_parameter(p))
}

fn is_described(description: &Description) -> bool
    ensures { result ≡ EntryBounds.is_described description.now }
{
    let parameters = description.parameters.as_slice();
    description.actions.off
        && parameters.len() <= MOST_PARAMETERS
        && are_parameters(parameters)
        && is_carrier(&description.target)
}

fn is_target(target: &LevelTarget) -> bool
    ensures { result ≡ EntryBounds.is_target target.now }
{
    match target {
        LevelTarget::Name(name) => is_name(name.as_str()),
        LevelTarget::Pattern(pattern) => {
            !pattern.as_str().is_empty() && pattern.as_str().len() <= LONGEST_NAME
        }
    }
}

fn is_index(index: u8) -> bool
    ensures { result ≡ EntryBounds.is_index index }
{
    index > 0 && index <= MOST_LEVELS_OF_TARGET
}

fn is_level(level: &LevelSet) -> bool
    ensures { result ≡ EntryBounds.is_level level.now }
{
    let devices = level.devices.as_slice();
    is_index(level.index)
        && is_target(&level.target)
        && !devices.is_empty()
        && devices.len() <= MOST_DEVICES_OF_LEVEL
        && are_names(devices)
}

fn is_level_gone(level: &LevelCleared) -> bool
    ensures { result ≡ EntryBounds.is_level_gone level.now }
{
    is_index(level.index) && is_target(&level.target)
}

fn is_agent(agent: &Described) -> bool
    ensures { result ≡ EntryBounds.is_agent agent.now }
{
    is_agent_name(agent.name.as_str()) && is_described(agent.description.get())
}

fn is_request(request: &Request) -> bool
    ensures { result ≡ EntryBounds.is_request request.now }
{
    is_name(request.client.as_str()) && is_name(request.target.as_str())
}

fn is_confirmation(confirmation: &Confirmation) -> bool
    ensures { result ≡ EntryBounds.is_confirmation confirmation.now }
{
    is_name(confirmation.client.as_str()) && is_name(confirmation.target.as_str())
}
