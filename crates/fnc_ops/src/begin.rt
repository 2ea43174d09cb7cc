// The record of an operation that begins.

ghost use Rattle.std.specs.Prelude.{◌≡◌, ◌≤◌, ◌+◌, ◌<◌, ◌^◌, length, IfOk};
ghost use Rattle.fnc_ops.specs.Stands.{AreFewDevices};
ghost use Rattle.fnc_journal.specs.Slots as Slots;
ghost use Rattle.fnc_ops.specs.FreshRecords as FreshRecords;

use crate::fresh::fresh_levels;
use crate::ops::Operation;
use fnc_journal::limits::MOST_DEVICES;
use fnc_journal::{Journal, NoMemory, Plan, Scope};
use fnc_records::OperationRecord;
use std::alloc::Global;

/// Whether levels are tried, and not candidates.
pub(crate) fn is_levelled(scope: Scope) -> bool
    ensures { result ≡ Slots.is_levelled scope }
{
    match scope {
        Scope::Nothing => false,
        _ => true,
    }
}

/// The record before it is seen whether a query is open.
fn unseen_operation(
    alloc: Global,
    journal: &Journal,
    operation: Operation,
    plan: &Plan,
    tries: u32,
) -> Result<OperationRecord, NoMemory>
    requires levels { AreFewDevices plan.now.levels }
    requires candidates { length plan.now.candidates ≤ MOST_DEVICES }
    requires over { operation.moment + operation.total < 2 ^ 64 }
    ensures { IfOk result (λ r. r ≡
        FreshRecords.unseen_operation tries (FreshRecords.begun_by operation plan.now journal.now.history)) }
{
    let levels = fresh_levels(alloc, journal, &operation, plan)?;
    let mut members = Vec::new(alloc);
    members.push(operation.req)?;
    Ok(OperationRecord {
        req: operation.req,
        kind: operation.kind,
        target: operation.target,
        begin: operation.moment,
        over: operation.moment + operation.total,
        moment: operation.moment,
        confirmed: false,
        ranked: is_levelled(plan.scope),
        untried: tries,
        levels,
        members,
    })
}

/// The record of an operation that begins, with its plan and with the allowed tries of all its slots. Where no query
/// is open it is known at once which levels are tried.
pub fn fresh_operation(
    alloc: Global,
    journal: &Journal,
    operation: Operation,
    plan: &Plan,
    tries: u32,
) -> Result<OperationRecord, NoMemory>
    requires levels { AreFewDevices plan.now.levels }
    requires candidates { length plan.now.candidates ≤ MOST_DEVICES }
    requires over { operation.moment + operation.total < 2 ^ 64 }
    ensures { IfOk result (λ r. r ≡
        FreshRecords.fresh_operation tries (FreshRecords.begun_by operation plan.now journal.now.history)) }
{
    let moment = operation.moment;
    let mut record = unseen_operation(alloc, journal, operation, plan, tries)?;
    record.see_moment(moment);
    Ok(record)
}
