// The commands, and the words that name them.

ghost use Rattle.std.specs.Prelude.{◌≡◌, IfOk, MatchResult, Some, map, string_bytes};
ghost use Rattle.fnc_words.specs.declared.command.WordsFault.TheVariants as faults;
ghost use Rattle.fnc_words.specs.Commands.{HasLimits, IsRefused, command_by, command_of, named};

use crate::audit::{Audit, read_audit};
use crate::course::{Course, read_course};
use crate::inquiry::{Inquiry, read_inquiry};
use crate::session::{Session, read_session};
use fnc_journal::NoMemory;
use std::alloc::{AllocError, Global};

/// The commands by name. Each stands in this list once.
#[derive(Clone, Copy, Debug, PartialEq, Eq)]
pub enum Name {
    Replay,
    Audit,
    History,
    Workload,
}

/// What a command line asks for: the command with its values.
#[derive(Debug, Drop)]
pub enum Command {
    /// Lines are replayed.
    Replay(Session),
    /// A journal is judged.
    Audit(Audit),
    /// The replies to the requests for a node are listed.
    History(Inquiry),
    /// A session is made, run and summed up.
    Workload(Course),
}

/// Why words are read as no command.
#[derive(Clone, Copy, Debug, PartialEq, Eq)]
pub enum WordsFault {
    /// They name none, `clap` does not take the words after the name, or the node is no name.
    NoCommand,
    /// Memory was refused.
    NoMemory,
}

impl From<AllocError> for WordsFault {
    ghost from_gives = { λ _ fault. fault ≡ faults.NoMemory };

    fn from(_error: AllocError) -> WordsFault {
        WordsFault::NoMemory
    }
}

impl From<NoMemory> for WordsFault {
    ghost from_gives = { λ _ fault. fault ≡ faults.NoMemory };

    fn from(_error: NoMemory) -> WordsFault {
        WordsFault::NoMemory
    }
}

impl Name {
    /// The command that this word names.
    fn named(word: &str) -> Option<Name>
        ensures { result ≡ named word.now }
    {
        match word {
            "replay" => Some(Name::Replay),
            "audit" => Some(Name::Audit),
            "history" => Some(Name::History),
            "workload" => Some(Name::Workload),
            _ => None,
        }
    }
}

/// Reads the words of a command that was named, the first of which is its name.
fn read_named(alloc: Global, name: Name, words: &[String]) -> Result<Command, WordsFault>
    ensures reads { MatchResult result (λ c. command_by (Some name) (map string_bytes words.now) ≡ Some c)
        (IsRefused (command_by (Some name) (map string_bytes words.now))) }
    ensures within { IfOk result HasLimits }
{
    match name {
        Name::Replay => Ok(Command::Replay(read_session(alloc, "replay", words)?)),
        Name::Audit => Ok(Command::Audit(read_audit(alloc, "audit", words)?)),
        Name::History => Ok(Command::History(read_inquiry(alloc, "history", words)?)),
        Name::Workload => Ok(Command::Workload(read_course(alloc, "workload", words)?)),
    }
}

/// Reads the words of a command line, without the program's own name: `replay [--entries N] [--journal]`,
/// `audit [--entries N]`, `history [--entries N] NODE` or `workload NUMBER COUNT`. Other words are `NoCommand`, and so
/// is a node that is no name; want of memory may stand in its place.
pub fn read_words(alloc: Global, words: &[String]) -> Result<Command, WordsFault>
    ensures reads { MatchResult result (λ c. command_of (map string_bytes words.now) ≡ Some c)
        (IsRefused (command_of (map string_bytes words.now))) }
    ensures within { IfOk result HasLimits }
{
    let Some(first) = words.first() else {
        return Err(WordsFault::NoCommand);
    };
    match Name::named(first.as_str()) {
        Some(name) => read_named(alloc, name, words),
        None => Err(WordsFault::NoCommand),
    }
}
