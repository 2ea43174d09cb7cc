// What a whole line says.

ghost use Rattle.std.specs.Prelude.{◌≡◌, ◌⊎◌, ◌<◌, ◌≤◌, [], length, IfOk, IfErr, IfNone, IfSome, MatchOption};
ghost use Rattle.std.specs.Prelude.{MatchResult, Ok, Err, Some, None};
ghost use Rattle.std.specs.Str.{is_utf8};
ghost use Rattle.fnc_text.specs.Words.{words};
ghost use Rattle.fnc_command.specs.Answers.{Tells};
ghost use Rattle.fnc_command.specs.Lines.{command, readable, said, exit_said};
ghost use Rattle.fnc_command.specs.Heads.{after_head};
ghost use Rattle.fnc_command.specs.Proper.{IsProper, IsProperExit};

use crate::ask::read_ask;
use crate::command::{Command, ExitRead, Mode, Read};
use crate::device::read_device;
use crate::head::{Head, Verb, read_head};
use crate::level::{read_level, read_unlevel};
use crate::spelling::is_utf8;
use crate::verb::{read_agent, read_confirm, read_ended, read_exit_words, read_pass, read_remove};
use fnc_journal::Cause;
use fnc_journal::limits::LONGEST_LINE;
use fnc_outside::LineBuf;
use std::alloc::Global;
use std::str::from_utf8;

/// What a line says, or the first cause why it says nothing. Memory is refused only for a line that
/// is not too long.
pub fn read_command(alloc: Global, line: &[u8], mode: Mode) -> Result<Read, Cause>
    ensures ok { IfOk result (λ read. said mode line.now ≡ Ok read) }
    ensures err { IfErr result (λ cause. (cause ≡ Cause.NoMemory) ⊎ (said mode line.now ≡ Err cause)) }
    ensures long { LONGEST_LINE < length line.now → result ≡ Err Cause.TooLong }
    ensures proper { IfOk result (λ read. IsProper mode read) }
{
    read_line(alloc, line, mode)
}

fn read_line(alloc: Global, line: &[u8], mode: Mode) -> Result<Read, Cause>
    ensures told { Tells result (said mode line.now) }
    ensures long { LONGEST_LINE < length line.now → result ≡ Err Cause.TooLong }
{
    check_readable(line)?;
    let mut out = buffer(alloc, line)?;
    let head = read_head(line, mode, &mut out)?;
    let command = read_words(alloc, head.verb, head.rest, mode, &mut out)?;
    Ok(Read {
        moment: head.moment,
        command,
    })
}

/// Whether a line can be read: it has at most 8,192 bytes, of UTF-8.
fn check_readable(line: &[u8]) -> Result<(), Cause>
    ensures read { MatchResult result (λ _. readable line.now ≡ Ok (words line.now)) (λ cause.
        readable line.now ≡ Err cause) }
    ensures short { IfOk result (λ _. length line.now ≤ LONGEST_LINE) }
{
    if line.len() > LONGEST_LINE {
        return Err(Cause::TooLong);
    }
    if !is_utf8(line) {
        return Err(Cause::NotUtf8);
    }
    Ok(())
}

/// A buffer for the words of a line.
fn buffer(alloc: Global, line: &[u8]) -> Result<LineBuf, Cause>
    requires { length line.now ≤ LONGEST_LINE }
    ensures { MatchResult result (λ b. b.size ≡ length line.now) (λ cause. cause ≡ Cause.NoMemory) }
{
    match LineBuf::with_size(alloc, line.len() as u32) {
        Ok(buffer) => Ok(buffer),
        Err(_) => Err(Cause::NoMemory),
    }
}

fn read_words(
    alloc: Global,
    verb: Verb,
    line: &[u8],
    mode: Mode,
    out: &mut LineBuf,
) -> Result<Command, Cause>
    requires { length line.now ≤ out.old.size }
    ensures { Tells result (command mode verb (words line.now)) }
{
    match verb {
        Verb::Device => read_device(alloc, line, out),
        Verb::Remove => read_remove(alloc, line, out),
        Verb::Level => read_level(alloc, line, out),
        Verb::Unlevel => read_unlevel(alloc, line, out),
        Verb::Agent => read_agent(alloc, line, out),
        Verb::Ask => read_ask(alloc, line, mode, out),
        Verb::Exit => read_exit_words(alloc, line, out),
        Verb::Pass => read_pass(line),
        Verb::Confirm => read_confirm(alloc, line, out),
    }
}

/// The exit that a line of mode Timed says, with the bytes of its output in the buffer. None where
/// the line says anything else or nothing, and then the buffer is empty. Takes no memory.
pub fn read_exit(line: &[u8], out: &mut LineBuf) -> Option<ExitRead>
    requires { length line.now ≤ out.old.size }
    ensures read { MatchOption result (exit_said (said Mode.Timed line.now) ≡ None) (λ exit.
        exit_said (said Mode.Timed line.now) ≡ Some (exit, out.new.bytes)) }
    ensures empty { IfNone result (out.new.bytes ≡ []) }
    ensures proper { IfSome result IsProperExit }
    ensures size { out.new.size ≡ out.old.size }
{
    match exit_line(line, out) {
        Some(exit) => Some(exit),
        None => {
            out.clear();
            None
        }
    }
}

fn exit_line(line: &[u8], out: &mut LineBuf) -> Option<ExitRead>
    requires { length line.now ≤ out.old.size }
    ensures read { MatchOption result (exit_said (said Mode.Timed line.now) ≡ None) (λ exit.
        exit_said (said Mode.Timed line.now) ≡ Some (exit, out.new.bytes)) }
    ensures size { out.new.size ≡ out.old.size }
{
    check_readable(line).ok()?;
    let head = read_head(line, Mode::Timed, out).ok()?;
    exit_after(head, out)
}

fn exit_after(head: Head<'_>, out: &mut LineBuf) -> Option<ExitRead>
    requires { length head.rest.now ≤ out.old.size }
    ensures read { MatchOption result (exit_said (after_head head.entry) ≡ None) (λ exit.
        exit_said (after_head head.entry) ≡ Some (exit, out.new.bytes)) }
    ensures size { out.new.size ≡ out.old.size }
{
    let Verb::Exit = head.verb else {
        return None;
    };
    let (run, exit) = read_ended(head.rest, out).ok()?;
    let moment = head.moment?;
    Some(ExitRead { moment, run, exit })
}
