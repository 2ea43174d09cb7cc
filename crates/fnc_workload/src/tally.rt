// How much a journal has of what a workload's line tells.

ghost use Rattle.std.specs.Prelude.{◌≡◌};
ghost use Rattle.fnc_workload.specs.Summed.{IsBelow, answered, tallied, tally_of};

use fnc_journal::{Answer, Event, Journal};

/// How many requests, replies in all, replies by answer, and refusals there are.
#[derive(Clone, Copy, Debug)]
pub(crate) struct Tally {
    pub asked: u32,
    pub answered: u32,
    pub passed: u32,
    pub levels: u32,
    pub time: u32,
    pub none: u32,
    pub refused: u32,
}

impl Tally {
    /// The counts with one more answer.
    fn with_answer(self, answer: Answer) -> Tally
        requires { IsBelow 4_294_967_295 self }
        ensures { result ≡ answered self answer }
    {
        let answered = self.answered + 1;
        match answer {
            Answer::Passed(_) => Tally {
                answered,
                passed: self.passed + 1,
                ..self
            },
            Answer::Levels => Tally {
                answered,
                levels: self.levels + 1,
                ..self
            },
            Answer::Time => Tally {
                answered,
                time: self.time + 1,
                ..self
            },
            Answer::NoDevice => Tally {
                answered,
                none: self.none + 1,
                ..self
            },
            Answer::Confirmed => Tally { answered, ..self },
        }
    }

    /// The counts with one more entry.
    fn with(self, event: &Event) -> Tally
        requires { IsBelow 4_294_967_295 self }
        ensures { result ≡ tallied self event.now }
    {
        match event {
            Event::Ask(_) => Tally {
                asked: self.asked + 1,
                ..self
            },
            Event::Reply(reply) => self.with_answer(reply.answer),
            Event::Refused(_) => Tally {
                refused: self.refused + 1,
                ..self
            },
            _ => self,
        }
    }
}

/// The counts of a journal.
pub(crate) fn counted(journal: &Journal) -> Tally
    ensures { result ≡ tally_of journal.now.history }
{
    let mut tally = Tally {
        asked: 0,
        answered: 0,
        passed: 0,
        levels: 0,
        time: 0,
        none: 0,
        refused: 0,
    };
    for index in 0..journal.len() {
        tally = tally.with(&journal.entry(index).event);
    }
    tally
}
