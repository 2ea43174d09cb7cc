// What an agent is asked to do.

ghost use Rattle.std.specs.Prelude.{◌≡◌};
ghost use Rattle.fnc_switch.specs.Agents.{action_of};

/// A change of the power of plugs.
#[derive(Clone, Copy, Debug, PartialEq, Eq)]
pub enum Operation {
    On,
    Off,
    /// All off, and then all on.
    Reboot,
}

/// What an agent of a switch can do, after the Fence Agent API.
#[derive(Clone, Copy, Debug, PartialEq, Eq)]
pub enum Action {
    /// Switches plugs.
    Operate(Operation),
    /// Tells whether plugs are on.
    Status,
    /// Prints the plugs.
    List,
    /// Does nothing, and succeeds.
    Monitor,
}

impl Action {
    /// The action that a word names.
    pub fn read(word: &str) -> Option<Action>
        ensures { result ≡ action_of word.now }
    {
        match word {
            "on" => Some(Action::Operate(Operation::On)),
            "off" => Some(Action::Operate(Operation::Off)),
            "reboot" => Some(Action::Operate(Operation::Reboot)),
            "status" => Some(Action::Status),
            "list" => Some(Action::List),
            "monitor" => Some(Action::Monitor),
            _ => None,
        }
    }
}
