// What the exit of an agent means.

ghost use Rattle.std.specs.Prelude.{◌≡◌};
ghost use Rattle.fnc_agent_api.specs.Meanings.{meaning};

use fnc_journal::{Exit, Kind};

/// What the exit of an agent tells.
#[derive(Clone, Copy, Debug, PartialEq, Eq)]
pub enum Meaning {
    /// The action was done.
    Success,
    /// The plug was found on.
    IsOn,
    /// The plug was found off.
    IsOff,
    /// The action failed, or the plug's state could not be found.
    Failure,
}

/// What an exit means for an action. By the Fence Agent API the status 0 is success and any other is a
/// failure, but for `status` 0 means on, 2 means off, and any other is an error. A run that ended without
/// a status failed.
pub fn exit_meaning(kind: Kind, exit: Exit) -> Meaning
    ensures { result ≡ meaning kind exit }
{
    match (kind, exit) {
        (Kind::Status, Exit::Code(0)) => Meaning::IsOn,
        (Kind::Status, Exit::Code(2)) => Meaning::IsOff,
        (Kind::Status, _) => Meaning::Failure,
        (_, Exit::Code(0)) => Meaning::Success,
        _ => Meaning::Failure,
    }
}
