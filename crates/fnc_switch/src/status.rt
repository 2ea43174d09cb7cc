// Whether plugs are on.

ghost use Rattle.std.specs.Prelude.{◌≡◌};
ghost use Rattle.std.specs.List.{list_all};
ghost use Rattle.fnc_switch.specs.References.{references};
ghost use Rattle.fnc_switch.specs.Agents as agents;

use crate::plug::Plug;
use crate::references::meant;

fn is_meant(on: bool, plugs: &[Plug], reference: &str) -> bool
    ensures { result ≡ agents.is_meant on plugs.now reference.now }
{
    match meant(plugs, reference) {
        Some(place) => plugs[place].on == on,
        None => false,
    }
}

fn all_are(on: bool, plugs: &[Plug], value: &str) -> bool
    ensures { result ≡ list_all (agents.is_meant on plugs.now) (references value.now) }
{
    value.split(',').all(|r| is_meant(on, plugs, r))
}

/// The status of `status`: 0 where each reference of a value means a plug that is on, 2 where each means one that is
/// off, else 1.
pub(crate) fn status(plugs: &[Plug], value: &str) -> u8
    ensures { result ≡ agents.told (references value.now) plugs.now }
{
    if all_are(true, plugs, value) {
        0
    } else if all_are(false, plugs, value) {
        2
    } else {
        1
    }
}
