// The start that comes next.

ghost use Rattle.std.specs.Prelude.{◌≡◌, ◌≤◌, ◌↔◌, None, IsNone, IfNone, IfSome};
ghost use Rattle.fnc_journal.specs.Found.{starts};
ghost use Rattle.fnc_journal.specs.Lawful.{Lawful};
ghost use Rattle.fnc_journal.specs.Startable.{first};
ghost use Rattle.fnc_ops.specs.OpsRecords.{waiting};
ghost use Rattle.fnc_records.specs.SlotFacts.{BothOr};
ghost use Rattle.fnc_ops.specs.Stands.{AreBounded};
ghost use Rattle.fnc_core.specs.Between.{Rests, StartsNext, IsNextStart};
ghost use Rattle.fnc_core.specs.Told.{IsTold};

use crate::change::Started;
use crate::limits::limit_of;
use crate::parts::Parts;
use fnc_journal::limits::GREATEST_MOMENT;
use fnc_journal::{Entry, Event, Journal, Req, Run};
use fnc_ops::Ops;

/// What is told of the try that an operation waits for, with the number that its run would have. None where it
/// waits for none.
fn told(journal: &Journal, ops: &Ops, req: Req, run: Run, moment: u64) -> Option<Started>
    requires lawful { Lawful journal.now.history }
    requires bounded { AreBounded journal.now.history }
    requires early { moment ≤ GREATEST_MOMENT }
    ensures { BothOr (IsTold journal.now.history moment run req) (waiting req.0 ops.now.operations) result }
{
    match ops.waiting(req) {
        None => None,
        Some(standing) => Some(Started {
            run,
            req,
            slot: standing.slot,
            reg: standing.reg,
            kind: standing.kind,
            attempt: standing.attempt,
            limit: limit_of(journal, req, standing, moment),
        }),
    }
}

impl Parts {
    /// The start that may be made first at a moment, with the number that its run would have. None exactly where
    /// none may be made.
    pub fn first_start(&self, moment: u64, run: Run) -> Option<Started>
        requires rests { Rests moment self.now }
        requires number { run.0 ≡ starts self.now.history }
        ensures none { IsNone result ↔ (first self.now.history moment ≡ None) }
        ensures some { IfSome result (IsNextStart moment self.now run) }
    {
        let item = self.queue.first(moment)?;
        told(&self.journal, &self.ops, item.req, run, moment)
    }

    /// Makes that start.
    pub fn start_next(&mut self, moment: u64, run: Run) -> Option<Started>
        requires rests { Rests moment self.old }
        requires number { run.0 ≡ starts self.old.history }
        ensures none { IsNone result ↔ (first self.old.history moment ≡ None) }
        ensures unchanged { IfNone result (self.new ≡ self.old) }
        ensures some { IfSome result (IsNextStart moment self.old run) }
        ensures starts { IfSome result (λ s. StartsNext moment s self.old self.new) }
        ensures rests { Rests moment self.new }
    {
        let item = self.queue.take_first(moment)?;
        let started = told(&self.journal, &self.ops, item.req, run, moment)?;
        let start = started.start();
        self.ops.started(&self.journal, &start, moment);
        self.journal.push(Entry {
            moment,
            event: Event::Start(start),
        });
        Some(started)
    }
}
