// A session of lines, as its words want it.

ghost use Rattle.std.specs.Prelude.{◌≡◌, IfOk, MatchResult, Some, map, string_bytes};
ghost use Rattle.fnc_words.specs.Arguments.{session_app};
ghost use Rattle.fnc_words.specs.Commands.{IsRefused, IsWithinLimits, session_of};
ghost use Rattle.fnc_words.specs.Making.{IsMadeAs};

use crate::argument::{entries_command, journal_argument};
use crate::command::WordsFault;
use crate::matching::matches_of;
use crate::value::{entries_of, form_of};
use clap::Command;
use fnc_journal_text::Form;
use std::alloc::{AllocError, Global};

/// How a session is to run: the number of entries that its journal may have, and the form in which it is printed.
#[derive(Clone, Copy, Debug, PartialEq, Eq)]
pub struct Session {
    pub entries: u32,
    pub form: Form,
}

/// The command of this name that runs a session.
fn session_command<'a>(alloc: Global, name: &'a str) -> Result<Command<'a>, AllocError>
    ensures { IfOk result (IsMadeAs (session_app name.entry.now)) }
{
    entries_command(alloc, name)?.arg(journal_argument(alloc))
}

/// Reads the words of a session: `[--entries N] [--journal]` after its name, which is the first of the words.
pub(crate) fn read_session<'a>(
    alloc: Global,
    name: &'a str,
    words: &'a [String],
) -> Result<Session, WordsFault>
    ensures reads { MatchResult result
        (λ s. session_of name.entry.now (map string_bytes words.entry.now) ≡ Some s)
        (IsRefused (session_of name.entry.now (map string_bytes words.entry.now))) }
    ensures within { IfOk result (λ s. IsWithinLimits s.entries) }
{
    let matches = matches_of(session_command(alloc, name)?, words)?;
    Ok(Session {
        entries: entries_of(&matches),
        form: form_of(&matches),
    })
}
