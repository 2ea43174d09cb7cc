// Why options define no device.

ghost use Rattle.std.specs.Prelude.{◌≡◌};
ghost use Rattle.fnc_device.specs.declared.fault.DefineFault.TheVariants.{NoMemory};

use fnc_journal::Text;
use thiserror::Error;

/// Why options define no device.
#[derive(Debug, Drop, Error)]
pub enum DefineFault {
    /// There are more than 32 options.
    #[error("more than 32 options")]
    TooManyOptions,
    /// The first option whose name or value is not well formed.
    #[error("the option {} is not well formed", .name.as_str())]
    BadOption { name: Text },
    /// The first option whose name stood before.
    #[error("the option {} stands twice", .name.as_str())]
    RepeatedOption { name: Text },
    /// `pcmk_host_list` cannot be read.
    #[error("a bad host list")]
    BadHostList,
    /// `pcmk_host_map` cannot be read.
    #[error("a bad host map")]
    BadHostMap,
    /// `pcmk_host_check` is none of its words.
    #[error("an unknown host check")]
    BadHostCheck,
    /// This option is no duration.
    #[error("the option {} is no duration", .name.as_str())]
    BadDuration { name: Text },
    /// `pcmk_action_limit` is neither 1 to 64 nor -1.
    #[error("the limit of actions is neither 1 to 64 nor -1")]
    BadLimit,
    /// `priority` is no number from -1000000 to 1000000.
    #[error("the priority is no number from -1000000 to 1000000")]
    BadPriority,
    /// This option is no number from 0 to 16.
    #[error("the option {} is no number from 0 to 16", .name.as_str())]
    BadRetries { name: Text },
    /// The agent's first parameter that is required and not given.
    #[error("the parameter {} is missing", .name.as_str())]
    MissingParameter { name: Text },
    /// Memory was refused.
    #[error("no memory")]
    NoMemory,
}

impl From<fnc_journal::NoMemory> for DefineFault {
    ghost from_gives = { λ _ e. e ≡ NoMemory };

    fn from(_e: fnc_journal::NoMemory) -> DefineFault {
        DefineFault::NoMemory
    }
}
