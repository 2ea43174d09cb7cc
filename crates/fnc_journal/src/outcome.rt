// How a command ends, and what a call answers where memory or room is wanting.

ghost use Rattle.std.specs.Prelude.{◌≡◌};
ghost use Rattle.fnc_journal.specs.Outcomes.{status_of};

use std::alloc::{AllocError, AllocFailed};

/// Want of memory.
#[derive(Clone, Copy, Debug, PartialEq, Eq)]
pub struct NoMemory;

impl From<AllocError> for NoMemory {
    fn from(_error: AllocError) -> NoMemory {
        NoMemory
    }
}

impl<T: Drop> From<AllocFailed<T>> for NoMemory {
    fn from(_error: AllocFailed<T>) -> NoMemory {
        NoMemory
    }
}

/// There is no room for what is wanted: the entries that stand, those that are owed for what was
/// accepted, and the need of what is wanted now are together above the limit. All four are numbers
/// of entries.
#[derive(Clone, Copy, Debug, PartialEq, Eq)]
pub struct Full {
    pub entries: u32,
    pub owed: u32,
    pub need: u32,
    pub limit: u32,
}

/// The rules that each entry of a lawful journal keeps, in the order in which they are tried.
#[derive(Clone, Copy, Debug, PartialEq, Eq)]
pub enum Rule {
    /// Moments do not fall, and numbers, references and scopes are in place.
    Order,
    /// An exit is of a run that is alive.
    Exit,
    /// A start is of the first action that may start.
    Start,
    /// No request is answered twice, and the replies of an operation follow each other.
    Once,
    /// A reply is the one that is due.
    Reply,
    /// Before an input nothing is due, and a request joins what it can join.
    Prompt,
}

/// How a command ended, in the order of the exit statuses 0 to 8.
#[derive(Clone, Copy, Debug, PartialEq, Eq)]
pub enum Outcome {
    /// The input was read to its end and all output written.
    Finished,
    /// The journal that was read breaks a rule at the entry of this index.
    Unlawful { index: u32, rule: Rule },
    /// The words of the command line are no command.
    Usage,
    /// A read failed.
    ReadFault,
    /// A write failed.
    WriteFault,
    /// Memory was refused.
    NoMemory,
    /// The allowed number of reads was made.
    Budget,
    /// The line of this number is no entry of a journal.
    BadEntry { line: u32 },
    /// A line found no room in the journal.
    JournalFull(Full),
}

impl Outcome {
    /// The exit status of the program.
    pub fn status(&self) -> u8
        ensures { result ≡ status_of self.now }
    {
        match self {
            Outcome::Finished => 0,
            Outcome::Unlawful { .. } => 1,
            Outcome::Usage => 2,
            Outcome::ReadFault => 3,
            Outcome::WriteFault => 4,
            Outcome::NoMemory => 5,
            Outcome::Budget => 6,
            Outcome::BadEntry { .. } => 7,
            Outcome::JournalFull(_) => 8,
        }
    }
}
