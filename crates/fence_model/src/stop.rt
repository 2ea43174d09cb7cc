// Why a run ends without what the agent was to do.

ghost use Rattle.std.specs.Prelude.{◌≡◌};

use fnc_agent_api::OptionFault;
use fnc_journal::NoMemory;
use std::io::{self, ErrorKind};

/// Why a run ends early.
#[derive(Clone, Copy, Debug, PartialEq, Eq)]
pub(crate) enum Stop {
    /// The options cannot be read or name no file, or a file or a stream failed.
    Fault,
    /// Memory was refused.
    NoMemory,
}

impl Stop {
    /// The exit status of the program.
    pub(crate) fn status(self) -> u8
        ensures fault { self ≡ Stop.Fault → result ≡ 1 }
        ensures memory { self ≡ Stop.NoMemory → result ≡ 5 }
    {
        match self {
            Stop::Fault => 1,
            Stop::NoMemory => 5,
        }
    }
}

impl From<NoMemory> for Stop {
    fn from(_want: NoMemory) -> Stop {
        Stop::NoMemory
    }
}

impl From<OptionFault> for Stop {
    fn from(fault: OptionFault) -> Stop {
        match fault {
            OptionFault::NoMemory => Stop::NoMemory,
            _ => Stop::Fault,
        }
    }
}

impl From<io::Error> for Stop {
    fn from(error: io::Error) -> Stop {
        match error.kind() {
            ErrorKind::OutOfMemory => Stop::NoMemory,
            _ => Stop::Fault,
        }
    }
}
