// Options that are durations, in milliseconds.

ghost use Rattle.std.specs.Prelude.{◌≡◌, Err};
ghost use Rattle.fnc_text.specs.Durations.{duration};
ghost use Rattle.fnc_device.specs.Times.{or_bad, time};
ghost use Rattle.fnc_device.specs.Steps.{Gives};

use crate::fault::DefineFault;
use crate::option::value_of;
use fnc_journal::{Pair, Text};
use fnc_text::read_duration;
use std::alloc::Global;

/// The duration that an option says, or the default where it is not given.
pub fn read_time(
    alloc: Global,
    options: &[Pair],
    name: &str,
    default: u64,
) -> Result<u64, DefineFault>
    ensures { Gives result (time name.now default options.now) }
{
    match value_of(options, name) {
        None => Ok(default),
        Some(text) => time_of(alloc, name, text),
    }
}

/// The duration that is the text of an option.
pub fn time_of(alloc: Global, name: &str, text: &str) -> Result<u64, DefineFault>
    ensures { Gives result (or_bad name.now (duration text.now)) }
{
    match read_duration(text.as_bytes()) {
        Ok(ms) => Ok(ms),
        Err(_) => bad_duration(alloc, name),
    }
}

/// The fault of an option that is no duration.
pub fn bad_duration(alloc: Global, name: &str) -> Result<u64, DefineFault>
    ensures { Gives result (Err (DefineFault.BadDuration name.now)) }
{
    let name = Text::new(alloc, name)?;
    Err(DefineFault::BadDuration { name })
}
