// A session that is made of a number, as the words want it.

ghost use Rattle.std.specs.Prelude.{◌≡◌, IfOk, MatchResult, Some, map, string_bytes};
ghost use Rattle.clap.specs.Words.{found_of, rows_of};
ghost use Rattle.fnc_words.specs.Arguments.{count_rule, course_app, number_rule};
ghost use Rattle.fnc_words.specs.Commands.{IsRefused, IsWithinSteps, course_of};
ghost use Rattle.fnc_words.specs.Making.{HasPassed, IsMadeAs};
ghost use Rattle.fnc_words.specs.Values.{course_in};

use crate::argument::{count_argument, number_argument, plain_command};
use crate::command::WordsFault;
use crate::matching::matches_of;
use crate::value::{count_of, number_of};
use clap::{ArgMatches, Command};
use std::alloc::{AllocError, Global};

/// The least number of steps of a course.
pub const LEAST_STEPS: u32 = 1;

/// The greatest number of steps of a course.
pub const MOST_STEPS: u32 = 100_000;

/// A course that a workload takes: the number that its draws begin with, and how many steps it has.
#[derive(Clone, Copy, Debug, PartialEq, Eq)]
pub struct Course {
    pub number: u64,
    pub count: u32,
}

/// The command of this name that makes its own session.
fn course_command<'a>(alloc: Global, name: &'a str) -> Result<Command<'a>, AllocError>
    ensures { IfOk result (IsMadeAs (course_app name.entry.now)) }
{
    plain_command(alloc, name)
        .arg(number_argument(alloc))?
        .arg(count_argument(alloc))
}

/// The course whose values were found.
fn course_in(matches: &ArgMatches) -> Result<Course, WordsFault>
    requires number { HasPassed (rows_of (found_of matches.now)) number_rule }
    requires count { HasPassed (rows_of (found_of matches.now)) count_rule }
    ensures reads { MatchResult result (λ c. course_in (rows_of (found_of matches.now)) ≡ Some c)
        (IsRefused (course_in (rows_of (found_of matches.now)))) }
    ensures within { IfOk result (λ c. IsWithinSteps c.count) }
{
    let (Some(number), Some(count)) = (number_of(matches), count_of(matches)) else {
        return Err(WordsFault::NoCommand);
    };
    Ok(Course { number, count })
}

/// Reads the words of a course: `NUMBER COUNT` after its name, which is the first of the words.
pub(crate) fn read_course<'a>(
    alloc: Global,
    name: &'a str,
    words: &'a [String],
) -> Result<Course, WordsFault>
    ensures reads { MatchResult result
        (λ c. course_of name.entry.now (map string_bytes words.entry.now) ≡ Some c)
        (IsRefused (course_of name.entry.now (map string_bytes words.entry.now))) }
    ensures within { IfOk result (λ c. IsWithinSteps c.count) }
{
    let matches = matches_of(course_command(alloc, name)?, words)?;
    course_in(&matches)
}
