// What a level is: an index and devices.

ghost use Rattle.std.specs.Prelude.{◌≡◌, IfOk};
ghost use Rattle.fnc_config.specs.Causes.{devices_cause, index_cause, repeats, target_cause, Sets};

use crate::faults::LevelFault;
use crate::pattern::Pattern;
use fnc_journal::limits::{MOST_DEVICES_OF_LEVEL, MOST_LEVELS_OF_TARGET};
use fnc_journal::{LevelTarget, Names, NoMemory, Text, has_name};
use std::alloc::Global;

/// The index of a level, where it is one.
pub(crate) fn level_index(index: u64) -> Result<u8, LevelFault>
    ensures value { IfOk result (λ i. i ≡ index) }
    ensures cause { Sets result (index_cause index) }
{
    if 1 <= index && index <= u64::from(MOST_LEVELS_OF_TARGET) {
        Ok(index as u8)
    } else {
        Err(LevelFault::BadIndex)
    }
}

/// Looks over the devices of a level.
pub(crate) fn check_devices(devices: &[Text]) -> Result<(), LevelFault>
    ensures { Sets result (devices_cause devices.now) }
{
    if devices.len() > MOST_DEVICES_OF_LEVEL {
        return Err(LevelFault::TooManyPlaces);
    }
    if repeats(devices) {
        return Err(LevelFault::RepeatedDevice);
    }
    Ok(())
}

fn repeats(devices: &[Text]) -> bool
    ensures { result ≡ repeats devices.now }
{
    for place in 0..devices.len() {
        if has_name(&devices[place + 1..], devices[place].as_str()) {
            return true;
        }
    }
    false
}

/// The pattern of a level's target, where it is one.
pub(crate) fn pattern_of(alloc: Global, target: &LevelTarget) -> Result<Option<Pattern>, LevelFault>
    ensures { Sets result (target_cause target.now) }
{
    match target {
        LevelTarget::Name(_) => Ok(None),
        LevelTarget::Pattern(text) => Ok(Some(Pattern::new(alloc, text.as_str())?)),
    }
}

/// A copy of the names of devices.
pub(crate) fn copy_of(alloc: Global, devices: &[Text]) -> Result<Names, NoMemory>
    ensures { IfOk result (λ names. names ≡ devices.now) }
{
    let mut names = Names::new(alloc);
    for device in devices {
        names.push(Text::new(alloc, device.as_str())?)?;
    }
    Ok(names)
}
