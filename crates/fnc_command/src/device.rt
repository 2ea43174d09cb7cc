// What the line of a device says.

ghost use Rattle.std.specs.Prelude.{◌≡◌, ◌≤◌, length, IfSome, option_copied};
ghost use Rattle.fnc_text.specs.Words.{words};
ghost use Rattle.fnc_command.specs.Answers.{Tells};
ghost use Rattle.fnc_command.specs.Options.{agent_word, option_words, optional_agent, said_device};

use crate::command::Command;
use crate::field::{agent_name, name};
use crate::option_word::{cut_option, read_pairs};
use crate::word::{first_word, wanted_word};
use fnc_journal::{Cause, Text};
use fnc_outside::LineBuf;
use std::alloc::Global;

/// The words after a device's name: that of its agent, if there is one, and the rest of the line.
#[derive(Clone, Copy)]
struct Described<'a> {
    agent: Option<&'a [u8]>,
    options: &'a [u8],
}

/// `device NAME [AGENT] [NAME=VALUE]..`
pub fn read_device(alloc: Global, line: &[u8], out: &mut LineBuf) -> Result<Command, Cause>
    requires { length line.now ≤ out.old.size }
    ensures read { Tells result (said_device (words line.now)) }
    ensures size { out.new.size ≡ out.old.size }
{
    let first = wanted_word(line)?;
    let described = words_of_device(first.rest);
    Ok(Command::Device {
        name: name(alloc, first.word, out)?,
        agent: read_agent(alloc, described.agent, out)?,
        options: read_pairs(alloc, described.options, out)?,
    })
}

fn words_of_device(line: &[u8]) -> Described<'_>
    ensures agent { option_copied result.agent ≡ agent_word (words line.now) }
    ensures options { words result.options.now ≡ option_words (words line.now) }
    ensures agent_within { IfSome result.agent (λ w. length w.now ≤ length line.now) }
    ensures options_within { length result.options.now ≤ length line.now }
{
    if let Some(cut) = first_word(line) {
        if cut_option(cut.word).is_none() {
            return Described {
                agent: Some(cut.word),
                options: cut.rest,
            };
        }
    }
    Described {
        agent: None,
        options: line,
    }
}

fn read_agent(alloc: Global, word: Option<&[u8]>, out: &mut LineBuf) -> Result<Option<Text>, Cause>
    requires { IfSome word (λ w. length w.now ≤ out.old.size) }
    ensures read { Tells result (optional_agent (option_copied word.entry)) }
    ensures size { out.new.size ≡ out.old.size }
{
    match word {
        Some(word) => Ok(Some(agent_name(alloc, word, out)?)),
        None => Ok(None),
    }
}
