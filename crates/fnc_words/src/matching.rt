// What `clap` finds in the words of a command.

ghost use Rattle.std.specs.Prelude.{◌≡◌, ◌↔◌, IfOk, MatchResult, map, string_bytes};
ghost use Rattle.clap.specs.Words.{App, kind_of};
ghost use Rattle.fnc_words.specs.Arguments.{taken};
ghost use Rattle.fnc_words.specs.Commands.{IsRefused};
ghost use Rattle.fnc_words.specs.Making.{Finds, IsExact, IsMadeAs};

use crate::command::WordsFault;
use clap::error::ErrorKind;
use clap::{ArgMatches, Command, Error};

/// Why `clap` did not take words.
fn fault_of(error: &Error) -> WordsFault
    ensures { (result ≡ WordsFault.NoMemory) ↔ (kind_of error.now ≡ ErrorKind.OutOfMemory) }
{
    match error.kind() {
        ErrorKind::OutOfMemory => WordsFault::NoMemory,
        _ => WordsFault::NoCommand,
    }
}

/// What the words of a command say, whose name is the first of them.
pub(crate) fn matches_of<'a>(
    command: Command<'a>,
    words: &'a [String],
) -> Result<ArgMatches<'a>, WordsFault>
    ensures { (app : App) → IsMadeAs app command.entry → IsExact app → MatchResult result
        (Finds app (map string_bytes words.entry.now))
        (IsRefused (taken app (map string_bytes words.entry.now))) }
{
    match command.try_get_matches_from(words) {
        Ok(matches) => Ok(matches),
        Err(error) => Err(fault_of(&error)),
    }
}
