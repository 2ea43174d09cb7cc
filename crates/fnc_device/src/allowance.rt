// What each action of a device is allowed.

ghost use Rattle.std.specs.Prelude.{◌≡◌, IfOk, codes};
ghost use Rattle.fnc_text.specs.Durations.{duration};
ghost use Rattle.fnc_text.specs.Digits.{number};
ghost use Rattle.fnc_device.specs.Options.{action_option, value_of};
ghost use Rattle.fnc_device.specs.Allowances.{timeout_option, retries_option, some_time, timeout_of, some_tries};
ghost use Rattle.fnc_device.specs.Allowances.{retries_of, word, allowed, allowances};
ghost use Rattle.fnc_device.specs.Steps.{Gives};

use crate::fault::DefineFault;
use crate::option::value_of;
use crate::time::bad_duration;
use fnc_journal::limits::{DEFAULT_TIME, DEFAULT_TRIES, MOST_TRIES};
use fnc_journal::{Allowed, Kind, NoMemory, Pair, Text};
use fnc_text::{read_duration, read_number};
use std::alloc::Global;

/// What each action is allowed.
#[derive(Drop)]
pub struct Allowances {
    pub on: Allowed,
    pub off: Allowed,
    pub reboot: Allowed,
    pub list: Allowed,
    pub status: Allowed,
}

/// Reads what each action is allowed, in the order of the fields.
pub fn read_allowances(alloc: Global, options: &[Pair]) -> Result<Allowances, DefineFault>
    ensures { Gives result (allowances options.now) }
{
    let on = allowed(alloc, options, Kind::On)?;
    let off = allowed(alloc, options, Kind::Off)?;
    let reboot = allowed(alloc, options, Kind::Reboot)?;
    let list = allowed(alloc, options, Kind::List)?;
    let status = allowed(alloc, options, Kind::Status)?;
    Ok(Allowances {
        on,
        off,
        reboot,
        list,
        status,
    })
}

fn allowed(alloc: Global, options: &[Pair], kind: Kind) -> Result<Allowed, DefineFault>
    ensures { Gives result (allowed kind options.now) }
{
    let time = timeout(alloc, options, timeout_option(kind))?;
    let tries = retries(alloc, options, retries_option(kind))?;
    let word = word(alloc, options, kind)?;
    Ok(Allowed { word, time, tries })
}

fn timeout(alloc: Global, options: &[Pair], name: &str) -> Result<u64, DefineFault>
    ensures { Gives result (timeout_of name.now (value_of name.now options.now)) }
{
    match value_of(options, name) {
        None => Ok(DEFAULT_TIME),
        Some(text) => some_time(alloc, name, text),
    }
}

fn some_time(alloc: Global, name: &str, text: &str) -> Result<u64, DefineFault>
    ensures { Gives result (some_time name.now (duration text.now)) }
{
    match read_duration(text.as_bytes()) {
        Ok(0) | Err(_) => bad_duration(alloc, name),
        Ok(ms) => Ok(ms),
    }
}

fn retries(alloc: Global, options: &[Pair], name: &str) -> Result<u8, DefineFault>
    ensures { Gives result (retries_of name.now (value_of name.now options.now)) }
{
    match value_of(options, name) {
        None => Ok(DEFAULT_TRIES),
        Some(text) => some_tries(alloc, name, text),
    }
}

fn some_tries(alloc: Global, name: &str, text: &str) -> Result<u8, DefineFault>
    ensures { Gives result (some_tries name.now (number MOST_TRIES text.now)) }
{
    match read_number(text.as_bytes(), u64::from(MOST_TRIES)) {
        Some(n) => Ok((n as u8).max(1)),
        None => {
            let name = Text::new(alloc, name)?;
            Err(DefineFault::BadRetries { name })
        }
    }
}

fn word(alloc: Global, options: &[Pair], kind: Kind) -> Result<Text, NoMemory>
    ensures { IfOk result (λ w. w ≡ word kind options.now) }
{
    match value_of(options, action_option(kind)) {
        Some(word) => Text::new(alloc, word),
        None => Text::new(alloc, kind.word()),
    }
}

fn action_option(kind: Kind) -> &'static str
    ensures { result.now ≡ action_option kind }
{
    match kind {
        Kind::On => "pcmk_on_action",
        Kind::Off => "pcmk_off_action",
        Kind::Reboot => "pcmk_reboot_action",
        Kind::List => "pcmk_list_action",
        Kind::Status => "pcmk_status_action",
    }
}

fn timeout_option(kind: Kind) -> &'static str
    ensures { result.now ≡ timeout_option kind }
{
    match kind {
        Kind::On => "pcmk_on_timeout",
        Kind::Off => "pcmk_off_timeout",
        Kind::Reboot => "pcmk_reboot_timeout",
        Kind::List => "pcmk_list_timeout",
        Kind::Status => "pcmk_status_timeout",
    }
}

fn retries_option(kind: Kind) -> &'static str
    ensures { result.now ≡ retries_option kind }
{
    match kind {
        Kind::On => "pcmk_on_retries",
        Kind::Off => "pcmk_off_retries",
        Kind::Reboot => "pcmk_reboot_retries",
        Kind::List => "pcmk_list_retries",
        Kind::Status => "pcmk_status_retries",
    }
}
