// The searches of the records of open operations, and the loops over them.

ghost use Rattle.std.specs.Prelude.{◌≡◌, map, find, filter, position, OnOk, OnErr};
ghost use Rattle.std.specs.Option.{option_copied};
ghost use Rattle.fnc_records.specs.OperationRecords as OperationRecords;
ghost use Rattle.fnc_ops.specs.OpsRecords as OpsRecords;

use crate::ops::Due;
use fnc_journal::{Exit, Kind, NoMemory, Req, Slot};
use fnc_records::{OperationRecord, Standing};

/// An operation whose standing slot has come to its action's end.
#[derive(Clone, Copy, Debug)]
struct Expiry {
    req: Req,
    end: u64,
}

fn expiry_of(operation: &OperationRecord, moment: u64) -> Option<Expiry>
    ensures { result ≡ OpsRecords.expiry_of moment operation.now }
{
    match operation.expired_at(moment) {
        Some(end) => Some(Expiry {
            req: operation.req,
            end,
        }),
        None => None,
    }
}

/// The sooner of two by that end; of equals the first.
fn sooner(first: Option<Expiry>, second: Option<Expiry>) -> Option<Expiry>
    ensures { result ≡ OpsRecords.sooner first second }
{
    match (first, second) {
        (Some(a), Some(b)) => Some(if b.end < a.end { b } else { a }),
        (Some(a), None) => Some(a),
        (None, b) => b,
    }
}

fn first_expiry(records: &[OperationRecord], moment: u64) -> Option<Expiry>
    ensures { result ≡ OpsRecords.first_expiry moment records.now }
{
    let mut first = None;
    for record in records {
        first = sooner(first, expiry_of(record, moment));
    }
    first
}

pub(crate) fn first_expired(records: &[OperationRecord], moment: u64) -> Option<Req>
    ensures { result ≡ OpsRecords.first_expired moment records.now }
{
    match first_expiry(records, moment) {
        Some(expiry) => Some(expiry.req),
        None => None,
    }
}

pub(crate) fn see_moment(records: &mut [OperationRecord], moment: u64)
    ensures { records.new ≡ map (OperationRecords.at_moment moment) records.old }
{
    for record in records.iter_mut() {
        record.see_moment(moment);
    }
}

pub(crate) fn see_moment_unless_ending(records: &mut [OperationRecord], operation: Req, moment: u64)
    ensures { records.new ≡ map (OperationRecords.at_moment_unless_ending operation.0 moment) records.old }
{
    for record in records.iter_mut() {
        record.see_moment_unless_ending(operation, moment);
    }
}

fn find_record(records: &[OperationRecord], operation: Req) -> Option<&OperationRecord>
    ensures { option_copied result ≡ find (OpsRecords.is_of operation.0) records.now }
{
    records.iter().find(|r| r.req.0 == operation.0)
}

pub(crate) fn waiting_of(records: &[OperationRecord], operation: Req) -> Option<Standing>
    ensures { result ≡ OpsRecords.waiting operation.0 records.now }
{
    match find_record(records, operation) {
        Some(record) => record.waiting(),
        None => None,
    }
}

pub(crate) fn standing_of(records: &[OperationRecord], operation: Req) -> Option<Standing>
    ensures { result ≡ OpsRecords.standing operation.0 records.now }
{
    match find_record(records, operation) {
        Some(record) => record.standing_now(),
        None => None,
    }
}

fn first_joinable<'a>(
    records: &'a [OperationRecord],
    target: &str,
    kind: Kind,
) -> Option<&'a OperationRecord>
    ensures { option_copied result ≡ find (OperationRecords.is_joinable kind target.now) records.now }
{
    records.iter().find(|r| r.is_joinable(target, kind))
}

pub(crate) fn joinable(records: &[OperationRecord], target: &str, kind: Kind) -> Option<Req>
    ensures { result ≡ OpsRecords.joinable kind target.now records.now }
{
    match first_joinable(records, target, kind) {
        Some(record) => Some(record.req),
        None => None,
    }
}

pub(crate) fn first_due(records: &[OperationRecord], moment: u64) -> Option<Due>
    ensures { OpsRecords.shown result ≡ OpsRecords.first_due moment records.now }
{
    for record in records {
        if let Some(answer) = record.due(moment) {
            return Some(Due {
                req: record.req,
                answer,
            });
        }
    }
    None
}

pub(crate) fn see_start(records: &mut [OperationRecord], operation: Req, moment: u64)
    ensures { records.new ≡
        map (OperationRecords.only operation.0 (OperationRecords.start_standing moment)) records.old }
{
    for record in records.iter_mut() {
        record.start_of(operation, moment);
    }
}

pub(crate) fn see_confirm(records: &mut [OperationRecord], target: &str)
    ensures { records.new ≡ map (OperationRecords.operation_confirmed target.now) records.old }
{
    for record in records.iter_mut() {
        record.see_confirm(target);
    }
}

pub(crate) fn see_exit(
    records: &mut [OperationRecord],
    operation: Req,
    slot: Slot,
    exit: Exit,
    listed: bool,
    moment: u64,
)
    ensures { records.new ≡ map
        (OperationRecords.only operation.0 (OperationRecords.operation_ended slot exit listed moment))
        records.old }
{
    for record in records.iter_mut() {
        record.see_exit_of(operation, slot, exit, listed, moment);
    }
}

pub(crate) fn see_reply(records: &mut [OperationRecord], operation: Req)
    ensures { records.new ≡ map (OperationRecords.only operation.0 OperationRecords.replied) records.old }
{
    for record in records.iter_mut() {
        record.see_reply_of(operation);
    }
}

pub(crate) fn keep_waiting(records: &mut Vec<OperationRecord>)
    ensures { records.new.items ≡ filter OperationRecords.is_waiting records.old.items }
{
    records.retain(|r| r.is_waiting());
}

fn place_of(records: &[OperationRecord], operation: Req) -> Option<usize>
    ensures { result ≡ position (OpsRecords.is_of operation.0) records.now }
{
    records.iter().position(|r| r.req.0 == operation.0)
}

pub(crate) fn join(
    records: &mut [OperationRecord],
    operation: Req,
    req: Req,
) -> Result<(), NoMemory>
    ensures ok { OnOk result (records.new ≡ OpsRecords.joined operation.0 req records.old) }
    ensures err { OnErr result (records.new ≡ records.old) }
{
    match place_of(records, operation) {
        Some(place) => records[place].join(req),
        None => Ok(()),
    }
}

/// A number with what the operations owe.
pub(crate) fn owed_with(records: &[OperationRecord], owed: u64) -> u64
    ensures { result ≡ OpsRecords.owed_with owed records.now }
{
    let mut all = owed;
    for record in records {
        all = all.saturating_add(record.owed());
    }
    all
}

pub(crate) fn first_member(records: &[OperationRecord], operation: Req) -> Option<Req>
    ensures { result ≡ OpsRecords.first_member operation.0 records.now }
{
    match find_record(records, operation) {
        Some(record) => record.first_member(),
        None => None,
    }
}
