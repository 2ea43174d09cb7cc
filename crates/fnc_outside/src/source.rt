// Where lines come from.

ghost use Rattle.std.specs.Prelude.{◌≡◌, ℕ, List, [], Option};
ghost use Rattle.fnc_outside.specs.Events.{Happening};
ghost use Rattle.fnc_outside.specs.Faults.{NeverFalls};
ghost use Rattle.fnc_outside.specs.Polls.{IsPolled, given_by, Leaves, HasCause};
ghost use Rattle.fnc_outside.specs.Told.{Gains};

use crate::line_buf::LineBuf;

/// What a poll answers.
#[derive(Clone, Copy, Debug, PartialEq, Eq)]
pub enum Polled {
    /// The next line is in the buffer, without its line feed.
    Line,
    /// The next line is longer than the buffer. All of it is taken, and none of it is kept.
    TooLong,
    /// No line is there yet.
    Again,
    /// Nothing is left, now and from now on.
    End,
    /// Reading failed. Nothing is taken.
    Failed,
}

/// A source of lines. Lines end at line feeds, and a last one without a line feed is a line where it has
/// a byte.
pub trait Source {
    /// The events that are still to come, where the source tells them.
    ghost left: { Self → Option (List Happening) };

    /// The events that were given so far, oldest first, where the source tells them.
    ghost given: { Self → Option (List Happening) };

    /// How many faults there were so far, up to 2^64 - 1.
    ghost faults: { Self → ℕ };

    /// Takes the next event. A line is put into the buffer, which is empty when the poll begins.
    fn poll(&mut self, line: &mut LineBuf) -> Polled
        requires empty { line.old.bytes ≡ [] }
        ensures size { line.new.size ≡ line.old.size }
        ensures buffer { IsPolled result line.new }
        ensures leaves { Leaves result line.new (left self.old) (left self.new) }
        ensures gives { Gains (given self.old) (given self.new) (given_by result line.new) }
        ensures count { NeverFalls (faults self.old) (faults self.new) }
        ensures cause { HasCause result (faults self.old) (faults self.new) };
}
