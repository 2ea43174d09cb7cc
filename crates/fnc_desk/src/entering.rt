// A line enters: what it says is done at its moment, or it is refused.

ghost use Rattle.std.specs.Prelude.{◌≡◌, ◌≤◌, false, Ok, OnOk, IfErr, length};
ghost use Rattle.fnc_command.specs.declared.command.Command.{Command};
ghost use Rattle.fnc_command.specs.declared.command.Mode.{Mode};
ghost use Rattle.fnc_command.specs.Lines.{said};
ghost use Rattle.fnc_command.specs.Proper.{IsProperCommand, IsProperExit};
ghost use Rattle.fnc_desk.specs.Entered.{Takes, Lacks};
ghost use Rattle.fnc_desk.specs.Inputs.{
  GivesLine,
  GivesNow,
  GivesOther,
  GivesRead,
  ends_run,
  given_in,
  moment_in,
  read_of,
  refused,
};

use crate::fencer::Fencer;
use fnc_command::{Command, ExitRead, Mode, Read, read_command, read_exit};
use fnc_journal::limits::{GREATEST_MOMENT, LONGEST_LINE};
use fnc_journal::{Cause, Exit, Full, Run};
use fnc_outside::LineBuf;

/// What comes with a line in mode Live: its moment, in milliseconds, and its coin.
#[derive(Clone, Copy, Debug, PartialEq, Eq)]
pub struct Given {
    pub moment: u64,
    pub coin: u64,
}

impl Given {
    /// What comes with a line in a mode: in mode Timed a line says its own moment, and a coin that it does not say is 0.
    fn within(self, mode: Mode) -> Given
        ensures { result ≡ given_in mode self }
    {
        match mode {
            Mode::Timed => Given { moment: 0, coin: 0 },
            Mode::Live => self,
        }
    }
}

impl Fencer {
    /// Refuses a line at the last moment.
    pub fn refuse_line(&mut self, number: u32, cause: Cause) -> Result<(), Full>
        ensures ok { OnOk result (Takes (λ h e. e ≡ refused self.old.last number cause) self.old self.new) }
        ensures full { IfErr result (Lacks (λ h e. e ≡ refused self.old.last number cause) self.old self.new) }
    {
        self.refuse(number, cause)
    }

    /// Ends a run at the last moment, or refuses the line.
    fn enter_end(&mut self, number: u32, run: Run, exit: Exit, output: &[u8]) -> Result<(), Full>
        ensures ok { OnOk result
            (Takes (GivesNow self.old 0 (Command.Exit run exit output.now) number) self.old self.new) }
        ensures full { IfErr result
            (Lacks (GivesNow self.old 0 (Command.Exit run exit output.now) number) self.old self.new) }
    {
        match self.end(run, exit, output) {
            Ok(()) => Ok(()),
            Err(denial) => self.refuse(number, denial.cause),
        }
    }

    /// Does what any other command calls for at the last moment, or refuses the line.
    fn enter_command(&mut self, number: u32, command: Command, coin: u64) -> Result<(), Full>
        requires proper { IsProperCommand Mode.Timed command }
        requires other { ends_run command ≡ false }
        ensures ok { OnOk result (Takes (GivesOther self.old coin command number) self.old self.new) }
        ensures full { IfErr result (Lacks (GivesOther self.old coin command number) self.old self.new) }
    {
        self.room()?;
        match self.obey(command, coin) {
            Ok(()) => Ok(()),
            Err(denial) => self.refuse(number, denial.cause),
        }
    }

    /// Enters an exit that was read, unless its moment is past.
    fn enter_exit(&mut self, number: u32, exit: ExitRead, output: &[u8]) -> Result<(), Full>
        requires proper { IsProperExit exit }
        ensures ok { OnOk result (Takes (λ h. GivesRead (record { moment = 0; coin = 0 })
            (Ok (read_of exit output.now)) h self.old.last self.old.limit number) self.old self.new) }
        ensures full { IfErr result (Lacks (λ h. GivesRead (record { moment = 0; coin = 0 })
            (Ok (read_of exit output.now)) h self.old.last self.old.limit number) self.old self.new) }
    {
        if exit.moment < self.last() {
            return self.refuse_line(number, Cause::PastMoment);
        }
        self.advance(exit.moment);
        self.enter_end(number, exit.run, exit.exit, output)
    }

    /// Enters what a line says that was read, unless its moment is past.
    fn enter_read(&mut self, number: u32, read: Read, given: Given) -> Result<(), Full>
        requires proper { IsProperCommand Mode.Timed read.command }
        requires other { ends_run read.command ≡ false }
        requires early { moment_in given read ≤ GREATEST_MOMENT }
        ensures ok { OnOk result (Takes (λ h. GivesLine given (Ok read) h self.old.last self.old.limit number)
            self.old self.new) }
        ensures full { IfErr result (Lacks (λ h. GivesLine given (Ok read) h self.old.last self.old.limit number)
            self.old self.new) }
    {
        let moment = read.moment.unwrap_or(given.moment);
        if moment < self.last() {
            return self.refuse_line(number, Cause::PastMoment);
        }
        self.advance(moment);
        self.enter_command(number, read.command, given.coin)
    }

    /// Enters the line of a number. Only an exit takes no memory: its output stands in the buffer.
    pub fn enter_line(
        &mut self,
        output: &mut LineBuf,
        mode: Mode,
        number: u32,
        line: &[u8],
        given: Given,
    ) -> Result<(), Full>
        requires size { length line.now ≤ output.old.size }
        requires early { (given_in mode given).moment ≤ GREATEST_MOMENT }
        ensures ok { OnOk result (Takes (λ h. GivesLine (given_in mode given) (said mode line.now) h
            self.old.last self.old.limit number) self.old self.new) }
        ensures full { IfErr result (Lacks (λ h. GivesLine (given_in mode given) (said mode line.now) h
            self.old.last self.old.limit number) self.old self.new) }
        ensures size { output.new.size ≡ output.old.size }
    {
        if let Mode::Timed = mode {
            if let Some(exit) = read_exit(line, output) {
                return self.enter_exit(number, exit, output.bytes());
            }
        }
        match read_command(self.alloc, line, mode) {
            Ok(read) => self.enter_read(number, read, given.within(mode)),
            Err(cause) => self.refuse_line(number, cause),
        }
    }
}
