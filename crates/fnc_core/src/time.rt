// Time passes.

ghost use Rattle.std.specs.Prelude.{◌≡◌, ◌≤◌};
ghost use Rattle.fnc_journal.specs.Lawful.{Lawful};
ghost use Rattle.fnc_ops.specs.Stands.{StandsFor, AreAt, AreBy};
ghost use Rattle.fnc_core.specs.Wanted as Wanted;
ghost use Rattle.fnc_core.specs.Between.{Between, Rests};

use crate::parts::Parts;
use crate::queueing::requeue;
use fnc_journal::Journal;
use fnc_journal::limits::GREATEST_MOMENT;
use fnc_ops::Ops;
use fnc_queue::Queue;

/// The records come to speak of a later moment, one by one where a standing slot has come to its action's end. What
/// these wait for changes with it, and so do their items in the queue; all others wait for what they waited for.
fn expire_all(journal: &Journal, ops: &mut Ops, queue: &mut Queue, moment: u64)
    requires lawful { Lawful journal.now.history }
    requires stands { StandsFor ops.old journal.now.history }
    requires later { AreBy moment ops.old.operations }
    requires waits { Wanted.Waits journal.now.history ops.old queue.old }
    requires has_places { Wanted.HasPlaces journal.now.history ops.old queue.old }
    ensures stands { StandsFor ops.new journal.now.history }
    ensures at { AreAt moment ops.new.operations }
    ensures waits { Wanted.Waits journal.now.history ops.new queue.new }
    ensures alive { queue.new.alive ≡ queue.old.alive }
    ensures has_places { Wanted.HasPlaces journal.now.history ops.new queue.new }
{
    while let Some(req) = ops.expire(journal, moment) {
        requeue(journal, ops, queue, req);
    }
}

impl Parts {
    /// Time passes: the records and the queue come to speak of a later moment. Of each operation whose standing
    /// slot has come to its action's end by then this is known from then on.
    pub fn pass_time(&mut self, last: u64, moment: u64)
        requires rests { Rests last self.old }
        requires later { last ≤ moment }
        requires early { moment ≤ GREATEST_MOMENT }
        ensures between { Between moment self.new }
        ensures history { self.new.history ≡ self.old.history }
        ensures limit { self.new.limit ≡ self.old.limit }
    {
        expire_all(&self.journal, &mut self.ops, &mut self.queue, moment);
    }
}
