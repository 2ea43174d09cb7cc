// How a device is asked whether it can fence a node.

ghost use Rattle.std.specs.Prelude.{◌≡◌};
ghost use Rattle.fnc_hosts.specs.Checks.{check_kind};

use fnc_journal::{Actions, HostCheck, Names, Pairs};

/// The check that is written, the value of `pcmk_host_check`. Where none is, it is that of the host
/// list and the host map if one of them has an entry, else the `list` of the agent if it has one,
/// else its `status` if it has one, else none.
pub fn check_kind(
    written: Option<HostCheck>,
    hosts: &Names,
    map: &Pairs,
    actions: &Actions,
) -> HostCheck
    ensures { result ≡ check_kind written hosts.now map.now actions.now }
{
    if let Some(check) = written {
        return check;
    }
    if !hosts.as_slice().is_empty() || !map.as_slice().is_empty() {
        HostCheck::StaticList
    } else if actions.list {
        HostCheck::DynamicList
    } else if actions.status {
        HostCheck::Status
    } else {
        HostCheck::Nothing
    }
}
