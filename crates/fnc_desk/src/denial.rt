// Why a command has no entry of its own.

ghost use Rattle.std.specs.Prelude.{◌≡◌};
ghost use Rattle.fnc_journal.specs.declared.cause.Cause.{Cause};
ghost use Rattle.fnc_desk.specs.Causes.{agent_cause, ask_cause, define_cause, describe_cause, level_cause, register_cause};

use fnc_agent_api::DescribeFault;
use fnc_config::{AgentFault, LevelFault, NoLevel, NotRegistered, RegisterFault};
use fnc_core::{AskRefusal, UnknownRun};
use fnc_device::DefineFault;
use fnc_journal::{Cause, NoMemory};

/// A command is refused: its line gives a refusal with the cause.
#[derive(Clone, Copy, Debug, PartialEq, Eq)]
pub(crate) struct Denial {
    pub cause: Cause,
}

impl From<DefineFault> for Denial {
    ghost from_gives = { λ fault denial. denial.cause ≡ define_cause fault };

    fn from(fault: DefineFault) -> Denial {
        let cause = match fault {
            DefineFault::TooManyOptions => Cause::TooManyOptions,
            DefineFault::BadOption { .. } => Cause::BadOption,
            DefineFault::RepeatedOption { .. } => Cause::RepeatedOption,
            DefineFault::BadHostList => Cause::BadHostList,
            DefineFault::BadHostMap => Cause::BadHostMap,
            DefineFault::BadHostCheck => Cause::BadHostCheck,
            DefineFault::BadDuration { .. } => Cause::BadDuration,
            DefineFault::BadLimit => Cause::BadLimit,
            DefineFault::BadPriority => Cause::BadPriority,
            DefineFault::BadRetries { .. } => Cause::BadRetries,
            DefineFault::MissingParameter { .. } => Cause::MissingParameter,
            DefineFault::NoMemory => Cause::NoMemory,
        };
        Denial { cause }
    }
}

impl From<DescribeFault> for Denial {
    ghost from_gives = { λ fault denial. denial.cause ≡ describe_cause fault };

    fn from(fault: DescribeFault) -> Denial {
        let cause = match fault {
            DescribeFault::NotJson => Cause::BadDescription,
            DescribeFault::NotObject => Cause::NotObject,
            DescribeFault::BadField { .. } => Cause::BadField,
            DescribeFault::NoOff => Cause::NoOff,
            DescribeFault::NoMemory => Cause::NoMemory,
        };
        Denial { cause }
    }
}

impl From<LevelFault> for Denial {
    ghost from_gives = { λ fault denial. denial.cause ≡ level_cause fault };

    fn from(fault: LevelFault) -> Denial {
        let cause = match fault {
            LevelFault::BadIndex => Cause::BadIndex,
            LevelFault::TooManyPlaces => Cause::TooManyPlaces,
            LevelFault::RepeatedDevice => Cause::RepeatedDevice,
            LevelFault::BadPattern => Cause::BadPattern,
            LevelFault::TooManyLevels => Cause::TooManyLevels,
            LevelFault::NoMemory => Cause::NoMemory,
        };
        Denial { cause }
    }
}

impl From<AgentFault> for Denial {
    ghost from_gives = { λ fault denial. denial.cause ≡ agent_cause fault };

    fn from(fault: AgentFault) -> Denial {
        let cause = match fault {
            AgentFault::TooManyAgents => Cause::TooManyAgents,
            AgentFault::NoMemory => Cause::NoMemory,
        };
        Denial { cause }
    }
}

impl From<RegisterFault> for Denial {
    ghost from_gives = { λ fault denial. denial.cause ≡ register_cause fault };

    fn from(fault: RegisterFault) -> Denial {
        let cause = match fault {
            RegisterFault::TooManyDevices => Cause::TooManyDevices,
            RegisterFault::NoMemory => Cause::NoMemory,
        };
        Denial { cause }
    }
}

impl From<AskRefusal> for Denial {
    ghost from_gives = { λ refusal denial. denial.cause ≡ ask_cause refusal };

    fn from(refusal: AskRefusal) -> Denial {
        let cause = match refusal {
            AskRefusal::Full(_) => Cause::Full,
            AskRefusal::NoMemory => Cause::NoMemory,
        };
        Denial { cause }
    }
}

impl From<NotRegistered> for Denial {
    ghost from_gives = { λ _ denial. denial.cause ≡ Cause.NotRegistered };

    fn from(_fault: NotRegistered) -> Denial {
        Denial {
            cause: Cause::NotRegistered,
        }
    }
}

impl From<NoLevel> for Denial {
    ghost from_gives = { λ _ denial. denial.cause ≡ Cause.NoLevel };

    fn from(_fault: NoLevel) -> Denial {
        Denial {
            cause: Cause::NoLevel,
        }
    }
}

impl From<UnknownRun> for Denial {
    ghost from_gives = { λ _ denial. denial.cause ≡ Cause.UnknownRun };

    fn from(_fault: UnknownRun) -> Denial {
        Denial {
            cause: Cause::UnknownRun,
        }
    }
}

impl From<NoMemory> for Denial {
    ghost from_gives = { λ _ denial. denial.cause ≡ Cause.NoMemory };

    fn from(_fault: NoMemory) -> Denial {
        Denial {
            cause: Cause::NoMemory,
        }
    }
}
