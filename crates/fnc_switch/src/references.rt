// Which plugs are meant.

ghost use Rattle.std.specs.Prelude.{◌≡◌, ◌<◌, length, is_some, IfSome};
ghost use Rattle.std.specs.List.{list_all};
ghost use Rattle.std.specs.Option.{option_copied};
ghost use Rattle.fnc_switch.specs.References as references;

use crate::plug::Plug;
use fnc_agent_api::Options;
use fnc_journal::Text;

fn named(plugs: &[Plug], reference: &str) -> Option<usize>
    ensures place { result ≡ references.named plugs.now reference.now }
    ensures within { IfSome result (λ place. place < length plugs.now) }
{
    plugs.iter().position(|plug| plug.name.is(reference))
}

fn aliased(plugs: &[Plug], reference: &str) -> Option<usize>
    ensures place { result ≡ references.aliased plugs.now reference.now }
    ensures within { IfSome result (λ place. place < length plugs.now) }
{
    plugs.iter().position(|plug| plug.alias.is(reference))
}

/// The place of the plug that a reference means.
pub(crate) fn meant(plugs: &[Plug], reference: &str) -> Option<usize>
    ensures place { result ≡ references.meant plugs.now reference.now }
    ensures within { IfSome result (λ place. place < length plugs.now) }
{
    if reference.is_empty() {
        return None;
    }
    match named(plugs, reference) {
        Some(place) => Some(place),
        None => aliased(plugs, reference),
    }
}

fn means_a_plug(plugs: &[Plug], reference: &str) -> bool
    ensures { result ≡ is_some (references.meant plugs.now reference.now) }
{
    meant(plugs, reference).is_some()
}

/// Whether each reference of a value means a plug.
pub(crate) fn all_mean_a_plug(plugs: &[Plug], value: &str) -> bool
    ensures { result ≡ list_all (λ r. is_some (references.meant plugs.now r)) (references.references value.now) }
{
    value.split(',').all(|r| means_a_plug(plugs, r))
}

/// What says which plugs are meant: the option `port`, else `plug`.
pub(crate) fn asked(options: &Options) -> Option<&Text>
    ensures { option_copied result ≡ references.asked options.now }
{
    match options.get("port") {
        Some(value) => Some(value),
        None => options.get("plug"),
    }
}
