// All starts that a line lets be made.

ghost use Rattle.fnc_replay.specs.Rests.{StartsAll};

use crate::timed::Timed;

/// Makes all starts that may be made at the last moment.
pub fn start_all(desk: &mut Timed)
    ensures { StartsAll desk.old desk.new }
{
    while let Some(_started) = desk.note_start() {}
}
