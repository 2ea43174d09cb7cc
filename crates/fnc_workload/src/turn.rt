// One line of a workload: it is made, and served.

ghost use Rattle.std.specs.Prelude.{◌≡◌, Some};
ghost use Rattle.fnc_journal.specs.declared.limits.TheConstants.{GREATEST_JOURNAL, LONGEST_LINE};
ghost use Rattle.fnc_workload.specs.Lines.{next_line};
ghost use Rattle.fnc_workload.specs.Turns.{Stands, Turns, course_of};

use crate::making::{Making, Next};
use crate::served::serve;
use crate::sought::{least_alive, past_ended};
use fnc_journal::Full;
use fnc_made::write_line;
use fnc_outside::LineBuf;
use fnc_replay::Timed;

/// A workload between two lines: the number that its draws begin with, how many steps it has, how it stands, and a run
/// below which all have ended.
#[derive(Clone, Copy, Debug)]
pub(crate) struct Worker {
    pub number: u64,
    pub count: u32,
    pub making: Making,
    pub past: u32,
}

/// What a turn came to: a line was served, a line found no room, or no line was left to be made.
#[derive(Clone, Copy, Debug)]
pub(crate) enum Turned {
    Served,
    Full(Full),
    Whole,
}

/// Serves a line that was made.
fn serve_made(desk: &mut Timed, line: &mut LineBuf, worker: &mut Worker, next: Next) -> Turned
    requires stands { Stands worker.old desk.old }
    requires size { line.old.size ≡ LONGEST_LINE }
    requires limit { desk.old.limit ≡ GREATEST_JOURNAL }
    requires comes { next_line (course_of worker.old) desk.old.history ≡ Some next }
    ensures turns { Turns result worker.old worker.new desk.old desk.new }
    ensures size { line.new.size ≡ line.old.size }
{
    line.clear();
    write_line(line, next.line);
    match serve(desk, line.bytes()) {
        Ok(()) => {
            worker.making = next.making;
            worker.past = past_ended(desk.journal(), worker.past);
            Turned::Served
        }
        Err(full) => Turned::Full(full),
    }
}

/// Makes the next line, and serves it.
pub(crate) fn turn(desk: &mut Timed, line: &mut LineBuf, worker: &mut Worker) -> Turned
    requires stands { Stands worker.old desk.old }
    requires size { line.old.size ≡ LONGEST_LINE }
    requires limit { desk.old.limit ≡ GREATEST_JOURNAL }
    ensures turns { Turns result worker.old worker.new desk.old desk.new }
    ensures size { line.new.size ≡ line.old.size }
{
    let alive = least_alive(desk.journal(), worker.past);
    match worker.making.next(worker.count, alive) {
        Some(next) => serve_made(desk, line, worker, next),
        None => Turned::Whole,
    }
}
