// A journal that is read, as the words want it.

ghost use Rattle.std.specs.Prelude.{◌≡◌, IfOk, MatchResult, Some, map, string_bytes};
ghost use Rattle.fnc_words.specs.Commands.{IsRefused, IsWithinLimits, audit_of};

use crate::argument::entries_command;
use crate::command::WordsFault;
use crate::matching::matches_of;
use crate::value::entries_of;
use std::alloc::Global;

/// How a journal is to be read: the number of entries that it may have.
#[derive(Clone, Copy, Debug, PartialEq, Eq)]
pub struct Audit {
    pub entries: u32,
}

/// Reads the words of an audit: `[--entries N]` after its name, which is the first of the words.
pub(crate) fn read_audit<'a>(
    alloc: Global,
    name: &'a str,
    words: &'a [String],
) -> Result<Audit, WordsFault>
    ensures reads { MatchResult result
        (λ a. audit_of name.entry.now (map string_bytes words.entry.now) ≡ Some a)
        (IsRefused (audit_of name.entry.now (map string_bytes words.entry.now))) }
    ensures within { IfOk result (λ a. IsWithinLimits a.entries) }
{
    let matches = matches_of(entries_command(alloc, name)?, words)?;
    Ok(Audit {
        entries: entries_of(&matches),
    })
}
