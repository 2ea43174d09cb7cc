// The options of a device: `name=value` pairs, of the fencer and of the device's agent.

ghost use Rattle.std.specs.Prelude.{◌≡◌, [], IfOk};
ghost use Rattle.std.specs.Option.{option_copied};
ghost use Rattle.fnc_device.specs.Options.{is_action_option, is_argument, suits, is_option, few, well_formed};
ghost use Rattle.fnc_device.specs.Options.{distinct_after, right_options, value_of, own_options};
ghost use Rattle.fnc_device.specs.Steps.{Gives};

use crate::fault::DefineFault;
use fnc_journal::limits::MOST_OPTIONS;
use fnc_journal::{
    NoMemory, Pair, Pairs, Text, find_pair, has_pair, is_option_name, is_option_value, is_own,
};
use std::alloc::Global;

/// Looks over the options as such: how many they are, then each by itself, then for repeated names.
pub fn check_options(alloc: Global, options: &[Pair]) -> Result<(), DefineFault>
    ensures { Gives result (right_options options.now) }
{
    if options.len() > MOST_OPTIONS {
        return Err(DefineFault::TooManyOptions);
    }
    check_form(alloc, options)?;
    check_repeats(alloc, options)
}

fn check_form(alloc: Global, options: &[Pair]) -> Result<(), DefineFault>
    ensures { Gives result (well_formed options.now) }
{
    for option in options {
        if !is_option(option) {
            let name = Text::new(alloc, option.name.as_str())?;
            return Err(DefineFault::BadOption { name });
        }
    }
    Ok(())
}

fn check_repeats(alloc: Global, options: &[Pair]) -> Result<(), DefineFault>
    ensures { Gives result (distinct_after [] options.now) }
{
    for (place, option) in options.iter().enumerate() {
        if has_pair(&options[..place], option.name.as_str()) {
            let name = Text::new(alloc, option.name.as_str())?;
            return Err(DefineFault::RepeatedOption { name });
        }
    }
    Ok(())
}

fn is_option(option: &Pair) -> bool
    ensures { result ≡ is_option option.now }
{
    let name = option.name.as_str();
    let value = option.value.as_str();
    is_option_name(name) && is_option_value(value) && suits(name, value)
}

/// Whether the value of this option is one that it can have, besides what each value must be.
fn suits(name: &str, value: &str) -> bool
    ensures { result ≡ suits name.now value.now }
{
    if is_own(name) {
        !value.as_bytes().ends_with(b" ")
    } else if name == "pcmk_host_argument" {
        is_argument(value)
    } else if is_action_option(name) {
        !value.is_empty()
    } else {
        true
    }
}

fn is_argument(value: &str) -> bool
    ensures { result ≡ is_argument value.now }
{
    value == "none" || is_option_name(value)
}

fn is_action_option(name: &str) -> bool
    ensures { result ≡ is_action_option name.now }
{
    name == "pcmk_on_action"
        || name == "pcmk_off_action"
        || name == "pcmk_reboot_action"
        || name == "pcmk_list_action"
        || name == "pcmk_status_action"
}

/// What an option says, where it is given.
pub fn value_of<'a>(options: &'a [Pair], name: &str) -> Option<&'a str>
    ensures { option_copied result ≡ value_of name.now options.now }
{
    find_pair(options, name).map(|o| o.value.as_str())
}

/// The options that are passed on to the agent, in their order.
pub fn own_options(alloc: Global, options: &[Pair]) -> Result<Pairs, NoMemory>
    ensures { IfOk result (λ own. own ≡ own_options options.now) }
{
    let mut own = Pairs::new(alloc);
    for option in options {
        if is_own(option.name.as_str()) {
            own.push(Pair {
                name: Text::new(alloc, option.name.as_str())?,
                value: Text::new(alloc, option.value.as_str())?,
            })?;
        }
    }
    Ok(own)
}
