// The values that were found in the words of a command. Each passed the parser of its argument.

ghost use Rattle.std.specs.Prelude.{◌≡◌, IfSome, option_map};
ghost use Rattle.clap.specs.Words.{found_of, rows_of};
ghost use Rattle.fnc_words.specs.Arguments.{count_rule, entries_rule, journal_rule, number_rule};
ghost use Rattle.fnc_words.specs.Commands.{IsWithinLimits, IsWithinSteps};
ghost use Rattle.fnc_words.specs.Making.{HasPassed};
ghost use Rattle.fnc_words.specs.Values.{count_of, entries_of, form_by, form_of, named_node, node_of, number_of};

use clap::ArgMatches;
use fnc_journal::limits::DEFAULT_JOURNAL;
use fnc_journal_text::Form;
use fnc_text::is_name;

/// How many entries a journal may have.
pub(crate) fn entries_of(matches: &ArgMatches) -> u32
    requires { HasPassed (rows_of (found_of matches.now)) entries_rule }
    ensures reads { result ≡ entries_of (rows_of (found_of matches.now)) }
    ensures within { IsWithinLimits result }
{
    matches.get_one::<u32>("entries").unwrap_or(DEFAULT_JOURNAL)
}

/// The form in which a journal is printed, by the flag that asks for all of it.
fn form_by(journal: bool) -> Form
    ensures { result ≡ form_by journal }
{
    if journal {
        Form::Journal
    } else {
        Form::Answers
    }
}

/// The form in which a journal is printed.
pub(crate) fn form_of(matches: &ArgMatches) -> Form
    requires { HasPassed (rows_of (found_of matches.now)) journal_rule }
    ensures { result ≡ form_of (rows_of (found_of matches.now)) }
{
    form_by(matches.get_flag("journal"))
}

/// The text where it is a name.
fn named_node(text: &str) -> Option<&str>
    ensures { option_map (λ s. s.now) result ≡ named_node text.now }
{
    if is_name(text) { Some(text) } else { None }
}

/// The node that is asked for, where it is a name.
pub(crate) fn node_of<'a>(matches: &ArgMatches<'a>) -> Option<&'a str>
    ensures { option_map (λ s. s.now) result ≡ node_of (rows_of (found_of matches.now)) }
{
    named_node(matches.get_str("node")?)
}

/// What a course begins with.
pub(crate) fn number_of(matches: &ArgMatches) -> Option<u64>
    requires { HasPassed (rows_of (found_of matches.now)) number_rule }
    ensures { result ≡ number_of (rows_of (found_of matches.now)) }
{
    matches.get_one::<u64>("number")
}

/// The number of steps of a course.
pub(crate) fn count_of(matches: &ArgMatches) -> Option<u32>
    requires { HasPassed (rows_of (found_of matches.now)) count_rule }
    ensures reads { result ≡ count_of (rows_of (found_of matches.now)) }
    ensures within { IfSome result IsWithinSteps }
{
    matches.get_one::<u32>("count")
}
