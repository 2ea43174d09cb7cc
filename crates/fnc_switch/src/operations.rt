// Plugs that are switched.

ghost use Rattle.std.specs.Prelude.{◌≡◌, ◌<◌, length, find, option_to_list, IfSome, IsTrue};
ghost use Rattle.std.specs.List.{filter_map};
ghost use Rattle.fnc_switch.specs.References.{meant as meant_of, references};
ghost use Rattle.fnc_switch.specs.Switches.{is_switch};
ghost use Rattle.fnc_switch.specs.Agents as agents;

use crate::action::Operation;
use crate::plug::Plug;
use crate::references::{all_mean_a_plug, meant};

/// Switches the plug at a place.
fn turn(plugs: &mut [Plug], place: usize, on: bool)
    requires { place < length plugs.old }
    ensures { plugs.new ≡ agents.changed (agents.turned on) place plugs.old }
{
    plugs[place].on = on;
}

/// Takes a failure from the plug at a place, where it has one.
fn fail(plugs: &mut [Plug], place: usize)
    requires { place < length plugs.old }
    ensures { plugs.new ≡ agents.changed agents.one_less place plugs.old }
{
    plugs[place].failures = plugs[place].failures.saturating_sub(1);
}

fn is_failing(plugs: &[Plug], place: usize) -> bool
    ensures { result ≡ agents.is_failing plugs.now place }
{
    match plugs.get(place) {
        Some(plug) => plug.failures > 0,
        None => false,
    }
}

/// The place of the first meant plug that has failures left, in the order of the references.
fn first_failing(plugs: &[Plug], value: &str) -> Option<usize>
    ensures place { result
        ≡ find (agents.is_failing plugs.now) (filter_map (meant_of plugs.now) (references value.now)) }
    ensures within { IfSome result (λ place. place < length plugs.now) }
{
    value
        .split(',')
        .filter_map(|r| meant(plugs, r))
        .find(|place| is_failing(plugs, *place))
}

/// Switches the plug that a reference means.
fn turn_meant(plugs: &mut [Plug], reference: &str, on: bool)
    ensures { plugs.new ≡ agents.switched on (option_to_list (meant_of plugs.old reference.now)) plugs.old }
{
    if let Some(place) = meant(plugs, reference) {
        turn(plugs, place, on);
    }
}

/// Switches all plugs that a value means.
fn turn_all(plugs: &mut [Plug], value: &str, on: bool)
    ensures { plugs.new ≡ agents.switched on (filter_map (meant_of plugs.old) (references value.now)) plugs.old }
{
    for reference in value.split(',') {
        turn_meant(plugs, reference, on);
    }
}

fn operate_all(operation: Operation, plugs: &mut [Plug], value: &str)
    ensures { plugs.new
        ≡ agents.operated operation (filter_map (meant_of plugs.old) (references value.now)) plugs.old }
{
    match operation {
        Operation::On => turn_all(plugs, value, true),
        Operation::Off => turn_all(plugs, value, false),
        Operation::Reboot => {
            turn_all(plugs, value, false);
            turn_all(plugs, value, true);
        }
    }
}

/// Switches the plugs that a value means, and answers the status. Where a reference means no plug nothing changes;
/// where one of the plugs has failures left, the first of them loses one and nothing else changes.
pub(crate) fn operate(operation: Operation, plugs: &mut [Plug], value: &str) -> u8
    ensures done { agents.operates operation (references value.now) plugs.old ≡ agents.silent result plugs.new }
    ensures kept { IsTrue (is_switch plugs.old) → IsTrue (is_switch plugs.new) }
{
    if !all_mean_a_plug(plugs, value) {
        return 1;
    }
    match first_failing(plugs, value) {
        Some(place) => {
            fail(plugs, place);
            1
        }
        None => {
            operate_all(operation, plugs, value);
            0
        }
    }
}
