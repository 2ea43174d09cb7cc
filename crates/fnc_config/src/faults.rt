// Why a change of the configuration is refused.

ghost use Rattle.std.specs.Prelude.{◌≡◌};
ghost use Rattle.fnc_config.specs.declared.faults.RegisterFault.TheVariants as register;
ghost use Rattle.fnc_config.specs.declared.faults.LevelFault.TheVariants as level;
ghost use Rattle.fnc_config.specs.declared.faults.AgentFault.TheVariants as agent;

use fnc_journal::NoMemory;
use thiserror::Error;

/// Why a device is not registered.
#[derive(Debug, Drop, Error)]
pub enum RegisterFault {
    /// The names of 128 other devices are registered.
    #[error("128 other devices are registered")]
    TooManyDevices,
    /// Memory was refused.
    #[error("no memory")]
    NoMemory,
}

impl From<NoMemory> for RegisterFault {
    ghost from_gives = { λ _ e. e ≡ register.NoMemory };

    fn from(_e: NoMemory) -> RegisterFault {
        RegisterFault::NoMemory
    }
}

/// A name has no current registration.
#[derive(Clone, Copy, Debug, PartialEq, Eq)]
pub struct NotRegistered;

/// Why a level is not set.
#[derive(Debug, Drop, Error)]
pub enum LevelFault {
    /// The index is not one of 1 to 9.
    #[error("no index of a level")]
    BadIndex,
    /// It has more than 8 devices.
    #[error("more than 8 devices")]
    TooManyPlaces,
    /// A device stands in it twice.
    #[error("a repeated device")]
    RepeatedDevice,
    /// The text is no pattern, or is nested too deep for one.
    #[error("no pattern")]
    BadPattern,
    /// 1,024 other levels stand.
    #[error("1024 other levels stand")]
    TooManyLevels,
    /// Memory was refused.
    #[error("no memory")]
    NoMemory,
}

impl From<NoMemory> for LevelFault {
    ghost from_gives = { λ _ e. e ≡ level.NoMemory };

    fn from(_e: NoMemory) -> LevelFault {
        LevelFault::NoMemory
    }
}

/// No such level stands.
#[derive(Clone, Copy, Debug, PartialEq, Eq)]
pub struct NoLevel;

/// Why an agent's description is not taken.
#[derive(Debug, Drop, Error)]
pub enum AgentFault {
    /// 64 other agents are described.
    #[error("64 other agents are described")]
    TooManyAgents,
    /// Memory was refused.
    #[error("no memory")]
    NoMemory,
}

impl From<NoMemory> for AgentFault {
    ghost from_gives = { λ _ e. e ≡ agent.NoMemory };

    fn from(_e: NoMemory) -> AgentFault {
        AgentFault::NoMemory
    }
}
