// The queue keeps up with what the operations wait for.

ghost use Rattle.std.specs.Prelude.{◌≡◌, ◌<◌, ◌+◌, true, false, is_some};
ghost use Rattle.fnc_queue.specs.Items.{is_waiting, Changes};
ghost use Rattle.fnc_core.specs.Wanted as Wanted;

use crate::lanes::wanted;
use fnc_journal::{Journal, Req};
use fnc_ops::Ops;
use fnc_queue::Queue;

/// The queue's item of an operation becomes that of the try that it waits for, none where it waits for none.
pub(crate) fn requeue(journal: &Journal, ops: &Ops, queue: &mut Queue, operation: Req)
    requires room { is_some (Wanted.wanted journal.now.history operation.0 ops.now) ≡ true →
        is_waiting operation.0 queue.old.waiting ≡ false → 0 < queue.old.spare }
    ensures changes { Changes operation.0 (Wanted.wanted journal.now.history operation.0 ops.now)
        queue.old.waiting queue.new.waiting }
    ensures alive { queue.new.alive ≡ queue.old.alive }
    ensures places { queue.new.spare + Wanted.one_if_held operation.0 queue.new.waiting
        ≡ queue.old.spare + Wanted.one_if_held operation.0 queue.old.waiting }
{
    queue.withdraw(operation);
    if let Some(item) = wanted(journal, ops, operation) {
        queue.add(item);
    }
}
