// A node that is asked for, as the words want it.

ghost use Rattle.std.specs.Prelude.{◌≡◌, IfOk, IsTrue, MatchResult, Some, map, string_bytes};
ghost use Rattle.clap.specs.Words.{found_of, rows_of};
ghost use Rattle.fnc_journal.specs.Names.{is_name};
ghost use Rattle.fnc_words.specs.Arguments.{entries_rule, inquiry_app};
ghost use Rattle.fnc_words.specs.Commands.{IsRefused, IsWithinLimits, inquiry_of};
ghost use Rattle.fnc_words.specs.Making.{HasPassed, IsMadeAs};
ghost use Rattle.fnc_words.specs.Values.{inquiry_in};

use crate::argument::{entries_command, node_argument};
use crate::command::WordsFault;
use crate::matching::matches_of;
use crate::value::{entries_of, node_of};
use clap::{ArgMatches, Command};
use fnc_journal::Text;
use std::alloc::{AllocError, Global};

/// Which node is asked for, and the number of entries that the journal may have in which it is looked up. The node
/// is a name, as it stands among the words.
#[derive(Debug, Drop)]
pub struct Inquiry {
    pub entries: u32,
    pub node: Text,
}

/// The command of this name that asks for a node.
fn inquiry_command<'a>(alloc: Global, name: &'a str) -> Result<Command<'a>, AllocError>
    ensures { IfOk result (IsMadeAs (inquiry_app name.entry.now)) }
{
    entries_command(alloc, name)?.arg(node_argument(alloc))
}

/// The inquiry whose values were found.
fn inquiry_in(alloc: Global, matches: &ArgMatches) -> Result<Inquiry, WordsFault>
    requires { HasPassed (rows_of (found_of matches.now)) entries_rule }
    ensures reads { MatchResult result (λ i. inquiry_in (rows_of (found_of matches.now)) ≡ Some i)
        (IsRefused (inquiry_in (rows_of (found_of matches.now)))) }
    ensures within { IfOk result (λ i. IsWithinLimits i.entries) }
    ensures named { IfOk result (λ i. IsTrue (is_name i.node)) }
{
    let Some(node) = node_of(matches) else {
        return Err(WordsFault::NoCommand);
    };
    Ok(Inquiry {
        entries: entries_of(matches),
        node: Text::new(alloc, node)?,
    })
}

/// Reads the words of an inquiry: `[--entries N] NODE` after its name, which is the first of the words.
pub(crate) fn read_inquiry<'a>(
    alloc: Global,
    name: &'a str,
    words: &'a [String],
) -> Result<Inquiry, WordsFault>
    ensures reads { MatchResult result
        (λ i. inquiry_of name.entry.now (map string_bytes words.entry.now) ≡ Some i)
        (IsRefused (inquiry_of name.entry.now (map string_bytes words.entry.now))) }
    ensures within { IfOk result (λ i. IsWithinLimits i.entries) }
    ensures named { IfOk result (λ i. IsTrue (is_name i.node)) }
{
    let matches = matches_of(inquiry_command(alloc, name)?, words)?;
    inquiry_in(alloc, &matches)
}
