// What the core refuses.

ghost use Rattle.fnc_core.specs.declared.refusal.AskRefusal as refusals;
ghost use Rattle.std.specs.Prelude.{◌≡◌};

use fnc_journal::{Full, NoMemory};
use std::alloc::{AllocError, AllocFailed};

/// Why a request was not taken.
#[derive(Clone, Copy, Debug, PartialEq, Eq)]
pub enum AskRefusal {
    /// There is no room for the entries that it needs.
    Full(Full),
    /// Memory was refused.
    NoMemory,
}

impl From<Full> for AskRefusal {
    ghost from_gives = { λ full refusal. refusal ≡ refusals.AskRefusal.Full full };

    fn from(full: Full) -> AskRefusal {
        AskRefusal::Full(full)
    }
}

impl From<NoMemory> for AskRefusal {
    ghost from_gives = { λ _ refusal. refusal ≡ refusals.AskRefusal.NoMemory };

    fn from(_error: NoMemory) -> AskRefusal {
        AskRefusal::NoMemory
    }
}

impl<T: Drop> From<AllocFailed<T>> for AskRefusal {
    ghost from_gives = { λ _ refusal. refusal ≡ refusals.AskRefusal.NoMemory };

    fn from(_error: AllocFailed<T>) -> AskRefusal {
        AskRefusal::NoMemory
    }
}

/// The run is not alive.
#[derive(Clone, Copy, Debug, PartialEq, Eq)]
pub struct UnknownRun;
