// How much a journal has of what the last line tells.

ghost use Rattle.std.specs.Prelude.{◌≡◌, ◌+◌, length};
ghost use Rattle.fnc_journal.specs.Found as Found;
ghost use Rattle.fnc_journal.specs.Lawful.{Lawful};
ghost use Rattle.fnc_journal.specs.Startable.{alive_runs};
ghost use Rattle.fnc_desk.specs.Tallied.{IsBelow, tallied, tally_of};

use fnc_journal::{Event, Journal};

/// How many requests, replies, starts and exits there are.
#[derive(Clone, Copy, Debug)]
pub(crate) struct Tally {
    pub asked: u32,
    pub answered: u32,
    pub started: u32,
    pub ended: u32,
}

impl Tally {
    /// The tally with one more entry.
    fn with(self, event: &Event) -> Tally
        requires { IsBelow 4_294_967_295 self }
        ensures { result ≡ tallied self event.now }
    {
        match event {
            Event::Ask(_) => Tally {
                asked: self.asked + 1,
                ..self
            },
            Event::Reply(_) => Tally {
                answered: self.answered + 1,
                ..self
            },
            Event::Start(_) => Tally {
                started: self.started + 1,
                ..self
            },
            Event::Exit(_) => Tally {
                ended: self.ended + 1,
                ..self
            },
            _ => self,
        }
    }
}

/// The tally of a journal.
pub(crate) fn counted(journal: &Journal) -> Tally
    ensures { result ≡ tally_of journal.now.history }
{
    let mut tally = Tally {
        asked: 0,
        answered: 0,
        started: 0,
        ended: 0,
    };
    for index in 0..journal.len() {
        tally = tally.with(&journal.entry(index).event);
    }
    tally
}

/// How many runs are alive: each exit ends one that was.
pub(crate) fn alive(journal: &Journal, tally: Tally) -> u32
    requires lawful { Lawful journal.now.history }
    requires counts { tally ≡ tally_of journal.now.history }
    ensures { result ≡ length (alive_runs journal.now.history) }
{
    tally.started - tally.ended
}
