// When and where a device's actions may start.

ghost use Rattle.std.specs.Prelude.{◌≡◌, codes};
ghost use Rattle.std.specs.List.{list_any};
ghost use Rattle.fnc_text.specs.Digits.{number};
ghost use Rattle.fnc_hosts.specs.Hosts.{is_colon, host_map};
ghost use Rattle.fnc_device.specs.Options.{value_of};
ghost use Rattle.fnc_device.specs.Schedules.{schedule, base_of, base_of_text, bad_base, delay, delays, limit_of};
ghost use Rattle.fnc_device.specs.Schedules.{counted_limit, priority_of, priority_of_text};
ghost use Rattle.fnc_device.specs.Nodes.{or_fault};
ghost use Rattle.fnc_device.specs.Steps.{Gives};

use crate::fault::DefineFault;
use crate::option::value_of;
use crate::time::{read_time, time_of};
use fnc_hosts::{HostFault, read_host_map};
use fnc_journal::limits::{GREATEST_PRIORITY, MOST_RUNS};
use fnc_journal::{Base, Delay, Delays, Pair, Pairs, Text};
use fnc_text::read_number;
use std::alloc::Global;

/// The delay before an action, how many runs may be alive at once, and the priority among devices.
#[derive(Drop)]
pub struct Schedule {
    pub base: Base,
    pub max: u64,
    pub cap: Option<u32>,
    pub priority: i32,
}

/// Reads the base and the max of the delay, the limit and the priority, in this order.
pub fn read_schedule(alloc: Global, options: &[Pair]) -> Result<Schedule, DefineFault>
    ensures { Gives result (schedule options.now) }
{
    let base = base(alloc, options)?;
    let max = read_time(alloc, options, "pcmk_delay_max", 0)?;
    let cap = limit(options)?;
    let priority = priority(options)?;
    Ok(Schedule {
        base,
        max,
        cap,
        priority,
    })
}

fn base(alloc: Global, options: &[Pair]) -> Result<Base, DefineFault>
    ensures { Gives result (base_of (value_of (codes "pcmk_delay_base") options.now)) }
{
    match value_of(options, "pcmk_delay_base") {
        None => Ok(Base::Fixed(0)),
        Some(text) => base_of_text(alloc, text),
    }
}

/// With a colon the base is written node by node, as ports are in a host map.
fn base_of_text(alloc: Global, text: &str) -> Result<Base, DefineFault>
    ensures { Gives result (base_of_text text.now) }
{
    if has_colon(text.as_bytes()) {
        let pairs = nodes_of_text(alloc, text)?;
        Ok(Base::ByNode(delays(alloc, pairs.as_slice())?))
    } else {
        Ok(Base::Fixed(time_of(alloc, "pcmk_delay_base", text)?))
    }
}

fn has_colon(text: &[u8]) -> bool
    ensures { result ≡ list_any is_colon text.now }
{
    text.iter().any(|b| *b == b':')
}

fn nodes_of_text(alloc: Global, text: &str) -> Result<Pairs, DefineFault>
    ensures { Gives result (or_fault bad_base (host_map text.now)) }
{
    match read_host_map(alloc, text) {
        Ok(pairs) => Ok(pairs),
        Err(HostFault::NoMemory) => Err(DefineFault::NoMemory),
        Err(_) => Err(DefineFault::BadDuration {
            name: Text::new(alloc, "pcmk_delay_base")?,
        }),
    }
}

fn delays(alloc: Global, pairs: &[Pair]) -> Result<Delays, DefineFault>
    ensures { Gives result (delays pairs.now) }
{
    let mut delays = Delays::new(alloc);
    for pair in pairs {
        delays.push(delay(alloc, pair)?)?;
    }
    Ok(delays)
}

fn delay(alloc: Global, pair: &Pair) -> Result<Delay, DefineFault>
    ensures { Gives result (delay pair.now) }
{
    let ms = time_of(alloc, "pcmk_delay_base", pair.value.as_str())?;
    Ok(Delay {
        name: Text::new(alloc, pair.name.as_str())?,
        ms,
    })
}

fn limit(options: &[Pair]) -> Result<Option<u32>, DefineFault>
    ensures { result ≡ limit_of (value_of (codes "pcmk_action_limit") options.now) }
{
    match value_of(options, "pcmk_action_limit") {
        None => Ok(Some(1)),
        Some("-1") => Ok(None),
        Some(text) => counted_limit(text),
    }
}

fn counted_limit(text: &str) -> Result<Option<u32>, DefineFault>
    ensures { result ≡ counted_limit (number MOST_RUNS text.now) }
{
    match read_number(text.as_bytes(), u64::from(MOST_RUNS)) {
        None | Some(0) => Err(DefineFault::BadLimit),
        Some(n) => Ok(Some(n as u32)),
    }
}

fn priority(options: &[Pair]) -> Result<i32, DefineFault>
    ensures { result ≡ priority_of (value_of (codes "priority") options.now) }
{
    match value_of(options, "priority") {
        None => Ok(0),
        Some(text) => priority_of_text(text.as_bytes()),
    }
}

fn priority_of_text(text: &[u8]) -> Result<i32, DefineFault>
    ensures { result ≡ priority_of_text text.now }
{
    match text {
        [b'-', digits @ ..] => match read_number(digits, u64::from(GREATEST_PRIORITY)) {
            Some(n) => Ok(-(n as i32)),
            None => Err(DefineFault::BadPriority),
        },
        _ => match read_number(text, u64::from(GREATEST_PRIORITY)) {
            Some(n) => Ok(n as i32),
            None => Err(DefineFault::BadPriority),
        },
    }
}
