// What the queue is to know of a try: its lane, and how many runs of the lane may be alive.

ghost use Rattle.std.specs.Prelude.{◌≡◌, Some, None, option_map};
ghost use Rattle.fnc_core.specs.Wanted as Wanted;

use fnc_journal::{Journal, Reg, Req};
use fnc_ops::Ops;
use fnc_queue::Waiting;
use fnc_records::Standing;

/// How many runs of its lane a registration lets be alive at once. None without limit.
fn cap_of(journal: &Journal, reg: Reg) -> Option<u32>
    ensures { result ≡ Wanted.cap_of reg.0 journal.now.history }
{
    match journal.registration(reg) {
        None => None,
        Some(registration) => registration.definition.cap,
    }
}

/// The item of the try that an operation waits for.
pub(crate) fn wanted(journal: &Journal, ops: &Ops, operation: Req) -> Option<Waiting>
    ensures { result ≡ Wanted.wanted journal.now.history operation.0 ops.now }
{
    match ops.waiting(operation) {
        None => None,
        Some(standing) => Some(Waiting {
            req: operation,
            lane: journal.lane(standing.reg),
            ready: standing.ready,
            cap: cap_of(journal, standing.reg),
        }),
    }
}
