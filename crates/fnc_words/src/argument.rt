// The arguments that the words of a command may have.

ghost use Rattle.std.specs.Prelude.{IfOk};
ghost use Rattle.fnc_words.specs.Arguments.{count_rule, entries_app, entries_rule, journal_rule, node_rule};
ghost use Rattle.fnc_words.specs.Arguments.{number_rule, plain_app};
ghost use Rattle.fnc_words.specs.Making.{IsArgument, IsMadeAs};

use crate::course::{LEAST_STEPS, MOST_STEPS};
use clap::{Arg, ArgAction, Command, value_parser};
use fnc_journal::limits::{GREATEST_JOURNAL, LEAST_JOURNAL};
use std::alloc::{AllocError, Global};

/// A command of this name without the help flag, and without arguments yet.
pub(crate) fn plain_command<'a>(alloc: Global, name: &'a str) -> Command<'a>
    ensures { IsMadeAs (plain_app name.entry.now) result }
{
    Command::new(alloc, name).disable_help_flag(true)
}

/// A command of this name with `--entries N`.
pub(crate) fn entries_command<'a>(alloc: Global, name: &'a str) -> Result<Command<'a>, AllocError>
    ensures { IfOk result (IsMadeAs (entries_app name.entry.now)) }
{
    plain_command(alloc, name).arg(entries_argument(alloc))
}

/// `--entries N`: how many entries a journal may have.
fn entries_argument<'a>(alloc: Global) -> Arg<'a>
    ensures { IsArgument entries_rule result }
{
    Arg::new(alloc, "entries")
        .long("entries")
        .action(ArgAction::Set)
        .value_parser(value_parser!(u32).range(
            i64::from(LEAST_JOURNAL)..=i64::from(GREATEST_JOURNAL),
        ))
}

/// `--journal`: the whole journal is printed.
pub(crate) fn journal_argument<'a>(alloc: Global) -> Arg<'a>
    ensures { IsArgument journal_rule result }
{
    Arg::new(alloc, "journal")
        .long("journal")
        .action(ArgAction::SetTrue)
        .value_parser(value_parser!(bool))
}

/// `NODE`: the node that is asked for.
pub(crate) fn node_argument<'a>(alloc: Global) -> Arg<'a>
    ensures { IsArgument node_rule result }
{
    Arg::new(alloc, "node")
        .required(true)
        .action(ArgAction::Set)
        .value_parser(value_parser!(String))
}

/// `NUMBER`: what a course begins with.
pub(crate) fn number_argument<'a>(alloc: Global) -> Arg<'a>
    ensures { IsArgument number_rule result }
{
    Arg::new(alloc, "number")
        .required(true)
        .action(ArgAction::Set)
        .value_parser(value_parser!(u64))
}

/// `COUNT`: the number of steps of a course.
pub(crate) fn count_argument<'a>(alloc: Global) -> Arg<'a>
    ensures { IsArgument count_rule result }
{
    Arg::new(alloc, "count")
        .required(true)
        .action(ArgAction::Set)
        .value_parser(value_parser!(u32).range(i64::from(LEAST_STEPS)..=i64::from(MOST_STEPS)))
}
