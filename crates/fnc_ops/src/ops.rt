// The records of all operations that are open.

ghost use Rattle.std.specs.Prelude.{◌≡◌, ◌∷◌, [], ◌<◌, ◌≤◌, ◌+◌, ◌-◌, ◌++◌, ◌^◌, ◌==◌, ℕ, List, length, map, find};
ghost use Rattle.std.specs.Prelude.{option_map, true, false, Some, None, OnOk, OnErr, slice_get};
ghost use Rattle.fnc_journal.specs.History.{History};
ghost use Rattle.fnc_journal.specs.Operations as Operations;
ghost use Rattle.fnc_records.specs.OperationRecords as OperationRecords;
ghost use Rattle.fnc_ops.specs.OpsRecords as OpsRecords;
ghost use Rattle.fnc_ops.specs.Stands.{AreAtButEnding, SpeaksAt};
ghost use Rattle.fnc_ops.specs.Stands.{StandsFor, AreAt, AreBy, AreBounded, AreFewDevices, first_ended, IsStandingOf};
ghost use Rattle.fnc_ops.specs.Stands.{IsTryOf, Try, AwaitsTry, IsFirstDue, behind, ask_entry, begun_request};
ghost use Rattle.fnc_ops.specs.Stands.{start_entry, exit_entry, reply_entry, confirm_entry, next_of};
ghost use Rattle.fnc_ops.specs.OpsRecords.{OthersWait, AllWait, AllWaitBut};
ghost use Rattle.fnc_journal.specs.Found as Found;
ghost use Rattle.fnc_journal.specs.Found.{starts, asks};
ghost use Rattle.fnc_journal.specs.Plan as Planned;
ghost use Rattle.fnc_journal.specs.Slots.{all_slots};
ghost use Rattle.fnc_ops.specs.FreshRecords.{begun_by, wanted_by};
ghost use Rattle.fnc_journal.specs.Owed as Owed;
ghost use Rattle.fnc_journal.specs.Operations.{open_operations, is_open, settled};
ghost use Rattle.fnc_journal.specs.Lawful.{Lawful};
ghost use Rattle.fnc_journal.specs.Startable.{is_alive};

use crate::begin::fresh_operation;
use crate::records::{
    first_due, first_expired, first_member, join, joinable, keep_waiting, owed_with, see_confirm,
    see_exit, see_moment, see_moment_unless_ending, see_reply, see_start, standing_of, waiting_of,
};
use fnc_journal::limits::{DAY, GREATEST_MOMENT, MOST_DEVICES};
use fnc_journal::{
    Answer, Confirmation, Ended, Journal, Kind, NoMemory, Plan, Req, Request, Start, Text,
};
use fnc_records::{OperationRecord, Standing};
use fnc_stands::each_stands_still;
use std::alloc::Global;
use std::marker::Model;

/// An answer that is due, and the operation to which it is.
#[derive(Clone, Copy, Debug, PartialEq, Eq)]
pub struct Due {
    pub req: Req,
    pub answer: Answer,
}

/// The records of the operations that are open, in rising order of their numbers, and the number of runs that
/// are alive. Contracts see what each of them keeps.
#[derive(Debug, Drop)]
pub struct Ops {
    records: Vec<OperationRecord>,
    alive: u32,
}

impl Model for Ops {
    ghost use Rattle.fnc_ops.specs.Kept.{Kept};

    ghost Value = { Kept };

    ghost view = { λ o. record { operations = o.records.items; alive = o.alive } };
}

/// What a request asks for that begins an operation: the action on the target, from the moment on and for the
/// total time in milliseconds, with the coin that draws its delays.
#[derive(Debug, Drop)]
pub struct Operation {
    pub req: Req,
    pub target: Text,
    pub kind: Kind,
    pub moment: u64,
    pub total: u64,
    pub coin: u64,
}

impl Ops {
    /// No operation.
    pub fn new(alloc: Global) -> Ops
        ensures { result ≡ record { operations = []; alive = 0 } }
    {
        Ops {
            records: Vec::new(alloc),
            alive: 0,
        }
    }

    fn kept_standing(&self, operation: Req) -> Option<Standing>
        ensures { result ≡ OpsRecords.standing operation.0 self.now.operations }
    {
        standing_of(&self.records, operation)
    }

    /// Where an operation stands, at the moment at which its record speaks. None where it is not open or
    /// stands nowhere. It may be asked between two answers of `expire` too: then it is exact of each operation
    /// but those that `expire` has still to give.
    pub fn standing(&self, operation: Req) -> Option<Standing>
        ensures { (h : History) (moment : ℕ) → Lawful h → StandsFor self.now h →
            SpeaksAt moment operation.0 self.now.operations → IsStandingOf h moment operation.0 result }
    {
        self.kept_standing(operation)
    }

    fn kept_waiting(&self, operation: Req) -> Option<Standing>
        ensures { result ≡ OpsRecords.waiting operation.0 self.now.operations }
    {
        waiting_of(&self.records, operation)
    }

    /// The try that an operation waits for: that of the slot at which it stands, where no run of that is alive.
    /// None where it is not open, stands nowhere, or a run of the slot is alive.
    pub fn waiting(&self, operation: Req) -> Option<Standing>
        ensures value { result ≡ OpsRecords.waiting operation.0 self.now.operations }
        ensures tries { (h : History) (moment : ℕ) → Lawful h → settled h moment ≡ true →
            AreAt moment self.now.operations → StandsFor self.now h →
            IsTryOf h moment result (find (λ o. o.req == operation.0) (open_operations h)) }
    {
        self.kept_waiting(operation)
    }

    /// How many operations are open.
    pub fn len(&self) -> usize
        ensures { result ≡ length self.now.operations }
    {
        self.records.len()
    }

    /// The number of an open operation, by its place in rising order.
    pub fn number(&self, place: usize) -> Req
        requires { place < length self.now.operations }
        ensures { Some result.0 ≡ option_map (λ r. r.req) (slice_get self.now.operations place) }
    {
        self.records[place].req
    }

    fn kept_owed(&self) -> u32
        ensures { OpsRecords.owed self.now < 2 ^ 32 → result ≡ OpsRecords.owed self.now }
    {
        let owed = owed_with(&self.records, u64::from(self.alive));
        u32::try_from(owed).unwrap_or(u32::MAX)
    }

    fn kept_joined(&mut self, operation: Req, req: Req) -> Result<(), NoMemory>
        ensures ok { OnOk result (self.new ≡
            record self.old { operations = OpsRecords.joined operation.0 req self.old.operations }) }
        ensures err { OnErr result (self.new ≡ self.old) }
    {
        join(&mut self.records, operation, req)
    }

    /// The entries that are owed for what was accepted: an exit for each run that is alive, a reply to each request
    /// that waits, and a start and an exit for each allowed try that was not started yet.
    pub fn owed(&self) -> u32
        ensures { (h : History) → StandsFor self.now h → Owed.owed h < 2 ^ 32 → result ≡ Owed.owed h }
    {
        self.kept_owed()
    }

    /// A request joins an open operation.
    pub fn join(&mut self, operation: Req, req: Req) -> Result<(), NoMemory>
        ensures ok { (h : History) (moment : ℕ) (request : Request) → request.req ≡ req → request.lead ≡ operation →
            Lawful h → StandsFor self.old h → req.0 ≡ asks h → is_open operation.0 h ≡ true →
            OnOk result (StandsFor self.new (ask_entry moment request ∷ h)) }
        ensures at { (moment : ℕ) → AreAt moment self.old.operations → AreAt moment self.new.operations }
        ensures waits { AllWait self.old self.new }
        ensures err { OnErr result (self.new ≡ self.old) }
    {
        self.kept_joined(operation, req)
    }

    fn kept_begun(&mut self, operation: OperationRecord) -> Result<(), NoMemory>
        ensures ok { OnOk result (self.new ≡ record self.old { operations = self.old.operations ++ operation ∷ [] }) }
        ensures err { OnErr result (self.new ≡ self.old) }
    {
        self.records.push(operation)?;
        Ok(())
    }

    /// An operation begins, with the plan that it has from now on and with the allowed tries of all its slots, as
    /// `allowed_tries` counts them: it is the last of those that are open.
    pub fn begin(
        &mut self,
        alloc: Global,
        journal: &Journal,
        operation: Operation,
        plan: Plan,
        tries: u32,
    ) -> Result<(), NoMemory>
        requires stands { StandsFor self.old journal.now.history }
        requires lawful { Lawful journal.now.history }
        requires at { AreAt operation.moment self.old.operations }
        requires number { operation.req.0 ≡ asks journal.now.history }
        requires early { operation.moment ≤ GREATEST_MOMENT }
        requires short { operation.total ≤ DAY }
        requires planned { plan ≡ Planned.plan (wanted_by operation plan.scope) journal.now.history }
        requires bounded { AreBounded journal.now.history }
        requires few_candidates { length plan.candidates ≤ MOST_DEVICES }
        requires few_devices { AreFewDevices plan.levels }
        requires tries { tries ≡
            Owed.tries_of (all_slots (begun_by operation plan journal.now.history)) }
        ensures ok { (client : List ℕ) →
            OnOk result
            (StandsFor self.new
            (ask_entry operation.moment (begun_request operation client plan.scope) ∷ journal.now.history)) }
        ensures at { OnOk result (AreAt operation.moment self.new.operations) }
        ensures others { OthersWait operation.req.0 self.old self.new }
        ensures err { OnErr result (self.new ≡ self.old) }
    {
        let record = fresh_operation(alloc, journal, operation, &plan, tries)?;
        self.kept_begun(record)
    }

    fn kept_joinable(&self, target: &str, kind: Kind) -> Option<Req>
        ensures { result ≡ OpsRecords.joinable kind target.now self.now.operations }
    {
        joinable(&self.records, target, kind)
    }

    /// The operation that a request for a target and an action joins: the least that is open and does not stand
    /// in its on phase. None where there is none.
    pub fn joinable(&self, target: &str, kind: Kind) -> Option<Req>
        ensures { (h : History) (moment : ℕ) → AreAt moment self.now.operations → StandsFor self.now h →
            option_map (λ r. r.0) result ≡ option_map (λ o. o.req) (Operations.joined h moment kind target.now) }
    {
        self.kept_joinable(target, kind)
    }

    fn kept_due(&self, moment: u64) -> Option<Due>
        ensures { OpsRecords.shown result ≡ OpsRecords.first_due moment self.now.operations }
    {
        first_due(&self.records, moment)
    }

    /// The least operation to which an answer is due, with that answer. None where none is.
    pub fn due(&self, moment: u64) -> Option<Due>
        requires at { AreAt moment self.now.operations }
        ensures { (h : History) → StandsFor self.now h → IsFirstDue h moment result (Operations.first_due h moment) }
    {
        self.kept_due(moment)
    }

    fn kept_expired(&self, moment: u64) -> Option<Req>
        ensures { result ≡ OpsRecords.first_expired moment self.now.operations }
    {
        first_expired(&self.records, moment)
    }

    fn kept_moved(&mut self, operation: Option<Req>, moment: u64)
        ensures { self.new ≡ record self.old { operations = OpsRecords.moved operation moment self.old.operations } }
    {
        match operation {
            Some(req) => see_moment_unless_ending(&mut self.records, req, moment),
            None => see_moment(&mut self.records, moment),
        }
    }

    /// A later moment has come. Of the operations whose standing slot has come to its action's end the first is
    /// taken, by that end and then by number, and its record speaks at the moment from now on, as do those of all
    /// operations that are not still to be taken. None where there is none: then all records do. What an operation
    /// waits for changes for the one that is taken alone.
    pub fn expire(&mut self, journal: &Journal, moment: u64) -> Option<Req>
        requires stands { StandsFor self.old journal.now.history }
        requires later { AreBy moment self.old.operations }
        ensures first { option_map (λ r. r.0) result ≡ first_ended journal.now.history moment self.old.operations }
        ensures stands { StandsFor self.new journal.now.history }
        ensures told { (req : Req) → result ≡ Some req → SpeaksAt moment req.0 self.new.operations }
        ensures others { AreAtButEnding journal.now.history moment self.new.operations }
        ensures moved { self.new.operations ≡ OpsRecords.moved result moment self.old.operations }
        ensures later { AreBy moment self.new.operations }
        ensures fewer { (req : Req) → result ≡ Some req →
            behind moment self.new.operations < behind moment self.old.operations }
        ensures same { map (λ r. r.req) self.new.operations ≡ map (λ r. r.req) self.old.operations }
        ensures all { result ≡ None → AreAt moment self.new.operations }
        ensures waits { Lawful journal.now.history → AllWaitBut result self.old self.new }
    {
        each_stands_still();
        let expired = self.kept_expired(moment);
        self.kept_moved(expired, moment);
        expired
    }

    fn kept_started(&mut self, operation: Req, moment: u64)
        ensures { self.new ≡ OpsRecords.started operation.0 moment self.old }
    {
        see_start(&mut self.records, operation, moment);
        self.alive = self.alive.saturating_add(1);
    }

    /// A run of an operation was started, of the slot at which that stands.
    pub fn started(&mut self, journal: &Journal, start: &Start, moment: u64)
        requires stands { StandsFor self.old journal.now.history }
        requires at { AreAt moment self.old.operations }
        requires lawful { Lawful journal.now.history }
        requires number { start.now.run.0 ≡ starts journal.now.history }
        requires early { moment ≤ GREATEST_MOMENT }
        requires few { length journal.now.history + 1 < 2 ^ 32 }
        requires settled { settled journal.now.history moment ≡ true }
        ensures stands { (y : Try) →
            AwaitsTry journal.now.history moment start.now.req.0 y → start.now.slot ≡ y.task.slot →
            StandsFor self.new (start_entry moment start.now ∷ journal.now.history) }
        ensures at { AreAt moment self.new.operations }
        ensures settled { settled (start_entry moment start.now ∷ journal.now.history) moment ≡ true }
        ensures waits { (y : Try) → AwaitsTry journal.now.history moment start.now.req.0 y →
            OpsRecords.waiting start.now.req.0 self.new.operations ≡ None }
        ensures others { OthersWait start.now.req.0 self.old self.new }
        ensures owes { (y : Try) →
            AwaitsTry journal.now.history moment start.now.req.0 y → start.now.slot ≡ y.task.slot →
            Owed.owed (start_entry moment start.now ∷ journal.now.history) + 1 ≡ Owed.owed journal.now.history }
    {
        self.kept_started(start.req, moment);
    }

    fn kept_confirmed(&mut self, target: &str)
        ensures { self.new ≡ record self.old {
          operations = map (OperationRecords.operation_confirmed target.now) self.old.operations;
        } }
    {
        see_confirm(&mut self.records, target);
    }

    /// An operator said that a target is down: of its operations that are open this is known from now on.
    pub fn confirm(&mut self, journal: &Journal, target: &str)
        requires stands { StandsFor self.old journal.now.history }
        ensures stands { (moment : ℕ) (word : Confirmation) → word.target ≡ target.now →
            StandsFor self.new (confirm_entry moment word ∷ journal.now.history) }
        ensures at { (moment : ℕ) → AreAt moment self.old.operations → AreAt moment self.new.operations }
        ensures waits { AllWait self.old self.new }
    {
        self.kept_confirmed(target);
    }

    fn kept_ended(&mut self, start: &Start, ended: Ended, moment: u64)
        ensures { self.new ≡ record {
          operations = OpsRecords.ended start.now ended moment self.old.operations;
          alive = self.old.alive - 1;
        } }
    {
        self.alive = self.alive.saturating_sub(1);
        see_exit(
            &mut self.records,
            start.req,
            start.slot,
            ended.exit,
            ended.listed,
            moment,
        );
    }

    /// A run that was started so has ended, of an operation that is open or of one that is not.
    pub fn ended(&mut self, journal: &Journal, start: &Start, ended: Ended, moment: u64)
        requires stands { StandsFor self.old journal.now.history }
        requires at { AreAt moment self.old.operations }
        requires lawful { Lawful journal.now.history }
        requires alive { is_alive ended.run.0 journal.now.history ≡ true }
        requires started { Found.started ended.run.0 journal.now.history ≡ Some start.now }
        requires few { length journal.now.history + 1 < 2 ^ 32 }
        requires settled { settled journal.now.history moment ≡ true }
        ensures stands { StandsFor self.new (exit_entry moment ended ∷ journal.now.history) }
        ensures at { AreAt moment self.new.operations }
        ensures others { OthersWait start.now.req.0 self.old self.new }
    {
        self.kept_ended(start, ended, moment);
    }

    fn kept_member(&self, operation: Req) -> Option<Req>
        ensures { result ≡ OpsRecords.first_member operation.0 self.now.operations }
    {
        first_member(&self.records, operation)
    }

    fn kept_replied(&mut self, operation: Req)
        ensures { self.new ≡ record self.old { operations = OpsRecords.replied operation.0 self.old.operations } }
    {
        see_reply(&mut self.records, operation);
        keep_waiting(&mut self.records);
    }

    /// Takes the least request that waits for an operation, to which its reply is given now. With the last one
    /// the operation is closed. None where the operation is not open; then nothing changes.
    pub fn next_member(&mut self, operation: Req) -> Option<Req>
        ensures member { (h : History) → StandsFor self.old h → option_map (λ r. r.0) result ≡ next_of h operation.0 }
        ensures none { result ≡ None → self.new ≡ self.old }
        ensures stands { (h : History) (req : Req) (moment : ℕ) (answer : Answer) →
            Lawful h → StandsFor self.old h → result ≡ Some req →
            StandsFor self.new (reply_entry moment req answer ∷ h) }
        ensures at { (moment : ℕ) → AreAt moment self.old.operations → AreAt moment self.new.operations }
        ensures others { (h : History) → StandsFor self.old h → OthersWait operation.0 self.old self.new }
    {
        let member = self.kept_member(operation);
        if let Some(_) = member {
            self.kept_replied(operation);
        }
        member
    }
}
