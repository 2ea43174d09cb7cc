// What one poll of the source does to the desk.

ghost use Rattle.std.specs.Prelude.{◌≤◌, ◌≡◌, ℕ, [], length};
ghost use Rattle.fnc_journal.specs.declared.limits.TheConstants.{LONGEST_LINE};
ghost use Rattle.fnc_outside.specs.Events.{Happening};
ghost use Rattle.fnc_replay.specs.Polls.{Serves, Takes};
ghost use Rattle.fnc_told.specs.SourceAndSink.{change, source_told};

use crate::starts::start_all;
use crate::timed::Timed;
use fnc_journal::Full;
use fnc_outside::{LineBuf, Polled, Source};

/// What a poll did: nothing was there, a line was served, a line found no room, the source is at its end,
/// or the read failed.
#[derive(Clone, Copy, Debug)]
pub(crate) enum Taken {
    Nothing,
    Served,
    Full(Full),
    Over,
    Failed,
}

/// Enters a line, and makes the starts that it lets be made.
fn serve(desk: &mut Timed, line: &[u8]) -> Taken
    requires short { length line.now ≤ LONGEST_LINE }
    ensures { Serves result (Happening.Line line.now) desk.old desk.new }
{
    match desk.enter(line) {
        Ok(()) => {
            start_all(desk);
            Taken::Served
        }
        Err(full) => Taken::Full(full),
    }
}

/// Enters a line that was too long to be read.
fn serve_long(desk: &mut Timed) -> Taken
    ensures { (size : ℕ) → Serves result (Happening.TooLong size) desk.old desk.new }
{
    match desk.enter_long() {
        Ok(()) => {
            start_all(desk);
            Taken::Served
        }
        Err(full) => Taken::Full(full),
    }
}

/// Polls the source once, and serves what it gave.
pub(crate) fn take<S: Source>(source: &mut S, desk: &mut Timed, line: &mut LineBuf) -> Taken
    requires holds_none { line.old.bytes ≡ [] }
    requires longest { line.old.size ≡ LONGEST_LINE }
    ensures takes { let of_source = source_told S.given S.left S.faults in
        Takes result (change (of_source source.old) (of_source source.new)) desk.old desk.new }
    ensures reads { S.faults source.old ≤ S.faults source.new }
    ensures empty { line.new.bytes ≡ [] }
    ensures size { line.new.size ≡ line.old.size }
{
    match source.poll(line) {
        Polled::Line => {
            let taken = serve(desk, line.bytes());
            line.clear();
            taken
        }
        Polled::TooLong => serve_long(desk),
        Polled::Again => Taken::Nothing,
        Polled::End => Taken::Over,
        Polled::Failed => Taken::Failed,
    }
}
