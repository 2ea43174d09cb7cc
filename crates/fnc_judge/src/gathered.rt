// What is gathered of the slots of a level or of all queries.

ghost use Rattle.std.specs.Prelude.{◌≡◌, if◌then◌else◌, Some, None};
ghost use Rattle.std.specs.Option.{option_or};
ghost use Rattle.fnc_journal.specs.Lawful.{Lawful};
ghost use Rattle.fnc_journal.specs.Acts.{acts};
ghost use Rattle.fnc_search.specs.Pursued as Pursued;
ghost use Rattle.fnc_judge.specs.Tours as Tours;

use fnc_search::{Operation, Past, Seen, Task, looked_at};
use std::marker::Model;

/// The first slot that is not confirmed, the first that is not concluded, whether one is spent and
/// not confirmed, and the last moment at which one was concluded.
#[derive(Drop)]
pub(crate) struct Gathered<'a> {
    pub unconfirmed: Option<Task<'a>>,
    pub unconcluded: Option<Task<'a>>,
    pub lost: bool,
    pub greatest: u128,
}

impl<'a> Model for Gathered<'a> {
    ghost use Rattle.std.specs.Prelude.{◌<◌, ◌^◌};
    ghost use Rattle.fnc_judge.specs.Tours as Tours;

    ghost Value = { Tours.Gathered };

    ghost invariant = { λ g. g.greatest < 2 ^ 65 };

    ghost view = { λ g. record {
      unconfirmed = g.unconfirmed;
      unconcluded = g.unconcluded;
      lost = g.lost;
      greatest = g.greatest;
    } };
}

fn first_of<'a>(earlier: Option<Task<'a>>, passes: bool, task: &Task<'a>) -> Option<Task<'a>>
    ensures { result ≡ option_or earlier.entry (if passes then None else Some task.now) }
{
    match earlier {
        Some(first) => Some(first),
        None => { if passes { None } else { Some(task.again()) } }
    }
}

impl<'a> Gathered<'a> {
    /// Of no slots.
    pub fn nothing() -> Gathered<'a>
        ensures { result ≡ Tours.nothing }
    {
        Gathered {
            unconfirmed: None,
            unconcluded: None,
            lost: false,
            greatest: 0,
        }
    }

    fn with_seen(self, task: &Task<'a>, seen: Seen, moment: u64, begin: u64) -> Gathered<'a>
        ensures { result ≡ Tours.gathered_by moment begin self.entry task.now seen }
    {
        let confirmed = seen.is_confirmed(task);
        let concluded = seen.is_concluded(task, moment);
        let greatest = if concluded {
            self.greatest.max(seen.concluded_at(task, begin))
        } else {
            self.greatest
        };
        Gathered {
            unconfirmed: first_of(self.unconfirmed, confirmed, task),
            unconcluded: first_of(self.unconcluded, concluded, task),
            lost: self.lost || (seen.is_spent(task, moment) && !confirmed),
            greatest,
        }
    }

    /// With one more slot of an operation.
    pub fn with(
        self,
        operation: &Operation<'_>,
        moment: u64,
        past: &Past<'_>,
        task: &Task<'a>,
    ) -> Gathered<'a>
        requires { Lawful past.now }
        ensures { result
            ≡ Tours.gathered (Pursued.operation operation.now) moment (acts operation.now.req past.now) self.entry
            task.now }
    {
        let seen = looked_at(past, operation.req(), task, operation.over());
        self.with_seen(task, seen, moment, operation.begin())
    }

    /// With one more slot of an operation, if there is one.
    pub fn with_any(
        self,
        operation: &Operation<'_>,
        moment: u64,
        past: &Past<'_>,
        task: Option<Task<'a>>,
    ) -> Gathered<'a>
        requires { Lawful past.now }
        ensures { result
            ≡ Tours.gathered_any (Pursued.operation operation.now) moment (acts operation.now.req past.now) self.entry
            task.entry }
    {
        match task {
            Some(task) => self.with(operation, moment, past, &task),
            None => self,
        }
    }
}
