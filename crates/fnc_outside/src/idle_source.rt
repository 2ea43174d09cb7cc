// A source at which no line ever comes, for tests.

ghost use Rattle.std.specs.Prelude.{◌≡◌, [], None};
ghost use Rattle.fnc_outside.specs.Faults.{NeverFalls};
ghost use Rattle.fnc_outside.specs.Polls.{IsPolled, given_by, Leaves, HasCause};
ghost use Rattle.fnc_outside.specs.Told.{Gains};

use crate::line_buf::LineBuf;
use crate::source::{Polled, Source};

/// Every poll answers that no line is there yet. It tells no events, and has no faults.
#[derive(Clone, Copy, Debug, Default)]
pub struct IdleSource;

impl IdleSource {
    /// A source at which nothing will come.
    pub fn new() -> IdleSource {
        IdleSource
    }
}

impl Source for IdleSource {
    ghost left = { λ s. None };

    ghost given = { λ s. None };

    ghost faults = { λ s. 0 };

    fn poll(&mut self, line: &mut LineBuf) -> Polled
        requires empty { line.old.bytes ≡ [] }
        ensures size { line.new.size ≡ line.old.size }
        ensures buffer { IsPolled result line.new }
        ensures leaves { Leaves result line.new None None }
        ensures gives { Gains None None (given_by result line.new) }
        ensures count { NeverFalls 0 0 }
        ensures cause { HasCause result 0 0 }
        // no line is there, at any poll
        ensures again { result ≡ Polled.Again }
    {
        Polled::Again
    }
}
