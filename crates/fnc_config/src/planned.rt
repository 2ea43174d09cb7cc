// The levels of a plan: their devices by the registrations that are current.

ghost use Rattle.std.specs.Prelude.{◌≡◌, IfOk, map, option_map};
ghost use Rattle.std.specs.Option.{option_copied};
ghost use Rattle.fnc_journal.specs.Levels.{pattern_at, pattern_here};
ghost use Rattle.fnc_journal.specs.Plan.{reg_of};
ghost use Rattle.fnc_config.specs.Configured.{number_of};
ghost use Rattle.fnc_config.specs.Planning.{places_in, plan_level_in};

use crate::levels::StandingLevel;
use crate::numbers::Numbers;
use fnc_journal::{Event, Journal, LevelTarget, Levels, NoMemory, Places, PlanLevel, Reg, Text};
use std::alloc::Global;

/// These levels, with their devices by current registrations.
pub(crate) fn planned_levels(
    alloc: Global,
    devices: &Numbers,
    levels: &[StandingLevel],
) -> Result<Levels, NoMemory>
    ensures { IfOk result (λ ls. ls ≡ map (plan_level_in devices.now) levels.now) }
{
    let mut planned = Levels::new(alloc);
    for level in levels {
        planned.push(PlanLevel {
            index: level.index,
            devices: places(alloc, devices, level.devices.as_slice())?,
        })?;
    }
    Ok(planned)
}

/// The current registrations of names.
fn places(alloc: Global, devices: &Numbers, names: &[Text]) -> Result<Places, NoMemory>
    ensures { IfOk result (λ places. places ≡ places_in devices.now names.now) }
{
    let mut places = Places::new(alloc);
    for name in names {
        places.push(reg_of(devices, name.as_str()))?;
    }
    Ok(places)
}

/// The current registration of a name.
fn reg_of(devices: &Numbers, name: &str) -> Option<Reg>
    ensures { result ≡ option_map reg_of (number_of name.now devices.now) }
{
    match devices.get(name) {
        Some(number) => Some(Reg(number)),
        None => None,
    }
}

/// The pattern of the level that is the entry of an index.
pub(crate) fn pattern_at(journal: &Journal, at: u32) -> Option<&Text>
    ensures { option_copied result ≡ pattern_at at journal.now.history }
{
    match journal.get(at) {
        Some(entry) => pattern_here(&entry.event),
        None => None,
    }
}

fn pattern_here(event: &Event) -> Option<&Text>
    ensures { option_copied result ≡ pattern_here event.now }
{
    match event {
        Event::Level(set) => match &set.target {
            LevelTarget::Pattern(text) => Some(text),
            LevelTarget::Name(_) => None,
        },
        _ => None,
    }
}
