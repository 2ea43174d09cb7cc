// A line goes the way that a line of any session goes.

ghost use Rattle.std.specs.Prelude.{◌≤◌, OnOk, IfErr, length};
ghost use Rattle.fnc_journal.specs.declared.limits.TheConstants.{LONGEST_LINE};
ghost use Rattle.fnc_outside.specs.Events.{Happening};
ghost use Rattle.fnc_replay.specs.Rests.{ServesLine};
ghost use Rattle.fnc_replay.specs.Timed.{LacksRoom};

use fnc_journal::Full;
use fnc_replay::{Timed, start_all};

/// Enters a line, and makes the starts that it lets be made.
pub(crate) fn serve(desk: &mut Timed, line: &[u8]) -> Result<(), Full>
    requires short { length line.now ≤ LONGEST_LINE }
    ensures ok { OnOk result (ServesLine (Happening.Line line.now) desk.old desk.new) }
    ensures full { IfErr result (LacksRoom (Happening.Line line.now) desk.old desk.new) }
{
    desk.enter(line)?;
    start_all(desk);
    Ok(())
}
