// Why a line is read as no entry.

ghost use Rattle.std.specs.Prelude.{◌≡◌};
ghost use Rattle.fnc_journal_reader.specs.declared.fault.EntryFault.TheVariants as Fault;

use thiserror::Error;

/// Why a line cannot be read.
#[derive(Debug, Drop, Error)]
pub enum EntryFault {
    /// It is the spelling of no entry.
    #[error("no entry of a journal")]
    Malformed,
    /// Memory was refused.
    #[error("no memory")]
    NoMemory,
}

impl From<fnc_journal::NoMemory> for EntryFault {
    ghost from_gives = { λ _ e. e ≡ Fault.NoMemory };

    fn from(_e: fnc_journal::NoMemory) -> EntryFault {
        EntryFault::NoMemory
    }
}
