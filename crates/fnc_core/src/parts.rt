// The parts of the core: a journal, the records of its open operations, and the queue of the tries that wait.

use fnc_journal::Journal;
use fnc_ops::Ops;
use fnc_queue::Queue;
use std::marker::Model;

/// The journal, the records that stand for it, and the queue. Contracts see what each of them is.
#[derive(Drop)]
pub(crate) struct Parts {
    pub journal: Journal,
    pub ops: Ops,
    pub queue: Queue,
}

impl Model for Parts {
    ghost use Rattle.fnc_core.specs.Parted.{Parted};

    ghost Value = { Parted };

    ghost view = { λ p. record { history = p.journal.history; limit = p.journal.limit; ops = p.ops; queue = p.queue } };
}
