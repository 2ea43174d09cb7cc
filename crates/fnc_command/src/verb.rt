// What the words after a verb say.

ghost use Rattle.std.specs.Prelude.{◌≡◌, ◌≤◌, length, Ok, Err, IfOk, MatchResult};
ghost use Rattle.fnc_text.specs.Words.{words};
ghost use Rattle.fnc_command.specs.Answers.{Tells};
ghost use Rattle.fnc_command.specs.Commands.{said_remove, said_pass, said_confirm, said_agent, said_exit, exit_words};
ghost use Rattle.fnc_command.specs.Commands.{ended};

use crate::command::Command;
use crate::field::{agent_name, copy_bytes, exit, name, number};
use crate::spelling::spell;
use crate::word::{first_word, no_word, one_word, two_words, wanted_word};
use fnc_journal::{Cause, Exit, Run};
use fnc_outside::LineBuf;
use std::alloc::Global;

/// `remove NAME`
pub fn read_remove(alloc: Global, line: &[u8], out: &mut LineBuf) -> Result<Command, Cause>
    requires { length line.now ≤ out.old.size }
    ensures read { Tells result (said_remove (words line.now)) }
    ensures size { out.new.size ≡ out.old.size }
{
    let word = one_word(line)?;
    Ok(Command::Remove {
        name: name(alloc, word, out)?,
    })
}

/// `pass`
pub fn read_pass(line: &[u8]) -> Result<Command, Cause>
    ensures { result ≡ said_pass (words line.now) }
{
    no_word(line)?;
    Ok(Command::Pass)
}

/// `confirm CLIENT TARGET`
pub fn read_confirm(alloc: Global, line: &[u8], out: &mut LineBuf) -> Result<Command, Cause>
    requires { length line.now ≤ out.old.size }
    ensures read { Tells result (said_confirm (words line.now)) }
    ensures size { out.new.size ≡ out.old.size }
{
    let (client, target) = two_words(line)?;
    Ok(Command::Confirm {
        client: name(alloc, client, out)?,
        target: name(alloc, target, out)?,
    })
}

/// `agent NAME JSON`
pub fn read_agent(alloc: Global, line: &[u8], out: &mut LineBuf) -> Result<Command, Cause>
    requires { length line.now ≤ out.old.size }
    ensures read { Tells result (said_agent (words line.now)) }
    ensures size { out.new.size ≡ out.old.size }
{
    let (agent, json) = two_words(line)?;
    let name = agent_name(alloc, agent, out)?;
    spell(json, out)?;
    Ok(Command::Agent {
        name,
        json: copy_bytes(alloc, out.bytes())?,
    })
}

/// The words after `exit`. Where there is no word of output, it is empty.
fn words_of_exit(line: &[u8]) -> Result<(&[u8], &[u8], &[u8]), Cause>
    ensures read { MatchResult result (λ w. exit_words (words line.now) ≡ Ok (w.0.now, w.1.now, w.2.now)) (λ cause.
        exit_words (words line.now) ≡ Err cause) }
    ensures within { IfOk result (λ w. (length w.0.now ≤ length line.now) × (length w.1.now ≤ length line.now)
        × (length w.2.now ≤ length line.now)) }
{
    let run = wanted_word(line)?;
    let exit = wanted_word(run.rest)?;
    match first_word(exit.rest) {
        None => Ok((run.word, exit.word, &[])),
        Some(output) => {
            no_word(output.rest)?;
            Ok((run.word, exit.word, output.word))
        }
    }
}

/// What the words after `exit` say. The bytes of the output are put into the buffer. Takes no memory.
pub fn read_ended(line: &[u8], out: &mut LineBuf) -> Result<(Run, Exit), Cause>
    requires { length line.now ≤ out.old.size }
    ensures read { MatchResult result (λ e. ended (words line.now)
        ≡ Ok (record { run = e.0.0; exit = e.1; output = out.new.bytes })) (λ cause.
        ended (words line.now) ≡ Err cause) }
    ensures size { out.new.size ≡ out.old.size }
{
    let (run, exit_word, output) = words_of_exit(line)?;
    let run = number(run, u64::from(u32::MAX), out)? as u32;
    let exit = exit(exit_word, out)?;
    spell(output, out)?;
    Ok((Run(run), exit))
}

/// `exit RUN EXIT [OUTPUT]`
pub fn read_exit_words(alloc: Global, line: &[u8], out: &mut LineBuf) -> Result<Command, Cause>
    requires { length line.now ≤ out.old.size }
    ensures read { Tells result (said_exit (words line.now)) }
    ensures size { out.new.size ≡ out.old.size }
{
    let (run, exit) = read_ended(line, out)?;
    let output = copy_bytes(alloc, out.bytes())?;
    Ok(Command::Exit { run, exit, output })
}
