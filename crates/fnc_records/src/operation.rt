// What is kept of an operation that is open.

ghost use Rattle.std.specs.Prelude.{◌≡◌, find, map, not, option_map, OnOk, OnErr};
ghost use Rattle.std.specs.List.{list_all, list_any};
ghost use Rattle.std.specs.Option.{option_copied};
ghost use Rattle.fnc_journal.specs.Operations as Operations;
ghost use Rattle.fnc_records.specs.SlotRecords as SlotRecords;
ghost use Rattle.fnc_records.specs.SlotRecords.{capped};
ghost use Rattle.fnc_records.specs.LevelRecords as LevelRecords;
ghost use Rattle.fnc_records.specs.OperationRecords as OperationRecords;

use crate::level::LevelRecord;
use crate::slot::SlotRecord;
use fnc_journal::{Answer, Exit, Kind, NoMemory, Phase, Reg, Req, Slot, Text};
use std::marker::Model;

/// Where an operation stands: the slot, with its device's registration and the action that is run there,
/// which of its tries is next, and since when that is ready; while a run is alive, since when that is.
/// The limit is there once the slot was started.
#[derive(Clone, Copy, Debug, PartialEq, Eq)]
pub struct Standing {
    pub slot: Slot,
    pub reg: Reg,
    pub kind: Kind,
    pub attempt: u8,
    pub ready: u64,
    pub limit: Option<u64>,
}

/// What is kept of an operation. `over` is the moment at which its total is over, `moment` the one at which
/// the record speaks, `confirmed` whether an operator confirmed since it began that the target is down, and
/// `members` the requests that wait for its answer, in rising order. `ranked` is whether it is known which
/// levels are tried: of a plan of candidates once all queries are concluded. `untried` is how many of the
/// allowed tries of all its slots were not started yet.
#[derive(Debug, Drop)]
pub struct OperationRecord {
    pub req: Req,
    pub kind: Kind,
    pub target: Text,
    pub begin: u64,
    pub over: u64,
    pub moment: u64,
    pub confirmed: bool,
    pub ranked: bool,
    pub untried: u32,
    pub levels: Vec<LevelRecord>,
    pub members: Vec<Req>,
}

impl Model for OperationRecord {
    ghost use Rattle.fnc_records.specs.KeptOperation.{KeptOperation};

    ghost Value = { KeptOperation };

    ghost view = { λ o. record {
      req = o.req.0;
      kind = o.kind;
      target = o.target;
      begin = o.begin;
      over = o.over;
      moment = o.moment;
      confirmed = o.confirmed;
      ranked = o.ranked;
      untried = o.untried;
      levels = o.levels.items;
      members = o.members.items;
    } };
}

fn is_on(phase: Phase) -> bool
    ensures { result ≡ Operations.is_on_phase phase }
{
    match phase {
        Phase::On => true,
        _ => false,
    }
}

/// The first query that is not concluded.
fn first_query(levels: &[LevelRecord], moment: u64) -> Option<&SlotRecord>
    ensures { option_copied result ≡ OperationRecords.first_query moment levels.now }
{
    for level in levels {
        if let Some(query) = level.open_query(moment) {
            return Some(query);
        }
    }
    None
}

fn all_queried(levels: &[LevelRecord], moment: u64) -> bool
    ensures { result ≡ list_all (LevelRecords.is_queried moment) levels.now }
{
    levels.iter().all(|l| l.is_queried(moment))
}

fn any_tried(levels: &[LevelRecord]) -> bool
    ensures { result ≡ list_any (λ l. l.tried) levels.now }
{
    levels.iter().any(|l| l.tried)
}

/// The first level that is tried and not lost.
fn first_kept(levels: &[LevelRecord], moment: u64) -> Option<&LevelRecord>
    ensures { option_copied result ≡ find (OperationRecords.is_kept moment) levels.now }
{
    levels.iter().find(|l| l.tried && !l.is_lost(moment))
}

/// Whether each level that is tried is lost.
fn all_lost(levels: &[LevelRecord], moment: u64) -> bool
    ensures { result ≡ list_all (λ l. not (OperationRecords.is_kept moment l)) levels.now }
{
    levels.iter().all(|l| !(l.tried && !l.is_lost(moment)))
}

/// The number of the level that passes.
fn passed(levels: &[LevelRecord], over: u64, moment: u64) -> Option<u8>
    ensures { result ≡ OperationRecords.passed over moment levels.now }
{
    for level in levels {
        if level.tried {
            if !level.unfit && level.is_done(over, moment) {
                return Some(level.index);
            }
            if !level.is_lost(moment) {
                return None;
            }
        }
    }
    None
}

/// The greatest of a moment and those at which the concluded queries were concluded.
fn latest_queries(levels: &[LevelRecord], begin: u64, moment: u64, at: u64) -> u64
    ensures { result ≡ OperationRecords.latest_queries begin moment at levels.now }
{
    let mut latest = at;
    for level in levels {
        latest = level.latest_query(begin, moment, latest);
    }
    latest
}

/// The greatest of a moment and those at which the concluded slots of the levels that are tried were concluded.
fn latest_levels(levels: &[LevelRecord], begin: u64, moment: u64, at: u64) -> u64
    ensures { result ≡ OperationRecords.latest_levels begin moment at levels.now }
{
    let mut latest = at;
    for level in levels {
        latest = level.latest_tried(begin, moment, latest);
    }
    latest
}

fn see_start(levels: &mut [LevelRecord], slot: Slot, moment: u64)
    ensures { levels.new ≡ map (LevelRecords.level_started slot moment) levels.old }
{
    for level in levels.iter_mut() {
        level.see_start(slot, moment);
    }
}

fn see_exit(
    levels: &mut [LevelRecord],
    slot: Slot,
    exit: Exit,
    listed: bool,
    over: u64,
    moment: u64,
)
    ensures { levels.new ≡ map (LevelRecords.level_ended slot exit listed over moment) levels.old }
{
    for level in levels.iter_mut() {
        level.see_exit(slot, exit, listed, over, moment);
    }
}

/// The capable candidates become the levels 1, 2, 3 and so on.
fn rank(levels: &mut [LevelRecord])
    ensures { levels.new ≡ OperationRecords.ranked_levels 1 levels.old }
{
    let mut index = 1;
    for level in levels.iter_mut() {
        index = level.rank_from(index);
    }
}

impl SlotRecord {
    /// What is told of the slot, where an operation that is over at a moment stands here since one.
    fn told(&self, since: u64, over: u64) -> Standing
        ensures { result ≡ OperationRecords.standing_at since over self.now }
    {
        Standing {
            slot: self.slot,
            reg: self.reg,
            kind: self.kind,
            attempt: self.attempt(),
            ready: self.ready(since),
            limit: self.limit(over),
        }
    }
}

impl OperationRecord {
    fn standing_slot(&self, moment: u64) -> Option<&SlotRecord>
        ensures { option_copied result ≡ OperationRecords.standing_slot moment self.now }
    {
        match first_query(&self.levels, moment) {
            Some(query) => Some(query),
            None => match first_kept(&self.levels, moment) {
                Some(level) => level.standing(moment),
                None => None,
            },
        }
    }

    /// Since when it stands where it stands.
    fn since(&self, moment: u64) -> u64
        ensures { result ≡ OperationRecords.since moment self.now }
    {
        let begin = self.begin;
        let queried = latest_queries(&self.levels, begin, moment, begin);
        latest_levels(&self.levels, begin, moment, queried)
    }

    fn standing(&self, moment: u64) -> Option<Standing>
        ensures { result ≡ OperationRecords.standing moment self.now }
    {
        match self.standing_slot(moment) {
            None => None,
            Some(s) => Some(s.told(self.since(moment), self.over)),
        }
    }

    /// Where the operation stands at the moment at which the record speaks.
    pub fn standing_now(&self) -> Option<Standing>
        ensures { result ≡ OperationRecords.standing self.now.moment self.now }
    {
        self.standing(self.moment)
    }

    /// The try that the operation waits for, at the moment at which the record speaks. None where it stands
    /// nowhere, or a run of the slot at which it stands is alive.
    pub fn waiting(&self) -> Option<Standing>
        ensures { result ≡ OperationRecords.waiting self.now }
    {
        match self.standing_slot(self.moment) {
            None => None,
            Some(s) => {
                if s.last.is_idle() {
                    Some(s.told(self.since(self.moment), self.over))
                } else {
                    None
                }
            }
        }
    }

    fn failure_due(&self, moment: u64) -> Option<Answer>
        ensures { result ≡ OperationRecords.failure_due moment self.now }
    {
        if all_queried(&self.levels, moment) && all_lost(&self.levels, moment) {
            if any_tried(&self.levels) {
                Some(Answer::Levels)
            } else {
                Some(Answer::NoDevice)
            }
        } else if self.over <= moment {
            Some(Answer::Time)
        } else {
            None
        }
    }

    /// Whether it stands in its on phase, at the moment at which the record speaks.
    fn stands_on(&self) -> bool
        ensures { result ≡ OperationRecords.stands_on self.now }
    {
        match self.standing_slot(self.moment) {
            Some(s) => is_on(s.slot.phase),
            None => false,
        }
    }

    /// Whether a request for a target and an action joins it: not where it stands in its on phase.
    pub fn is_joinable(&self, target: &str, kind: Kind) -> bool
        ensures { result ≡ OperationRecords.is_joinable kind target.now self.now }
    {
        kind.is(self.kind) && self.target.is(target) && !self.stands_on()
    }

    /// The answer that is due to the operation at a moment. None where none is.
    pub fn due(&self, moment: u64) -> Option<Answer>
        ensures { result ≡ OperationRecords.due moment self.now }
    {
        if self.confirmed && self.kind.cuts_power() {
            return Some(Answer::Confirmed);
        }
        match passed(&self.levels, self.over, moment) {
            Some(index) => Some(Answer::Passed(index)),
            None => self.failure_due(moment),
        }
    }

    fn rank_if_queried(&mut self, moment: u64)
        ensures { self.new ≡ OperationRecords.ranked_if_queried moment self.old }
    {
        if !self.ranked && all_queried(&self.levels, moment) {
            rank(&mut self.levels);
            self.ranked = true;
        }
    }

    /// The end of the standing slot's action, where that has come.
    pub fn expired_at(&self, moment: u64) -> Option<u64>
        ensures { result ≡ OperationRecords.expired_at moment self.now }
    {
        match self.standing_slot(self.moment) {
            Some(slot) => slot.end_by(moment),
            None => None,
        }
    }

    /// A later moment has come.
    pub fn see_moment(&mut self, moment: u64)
        ensures { self.new ≡ OperationRecords.at_moment moment self.old }
    {
        self.moment = moment;
        self.rank_if_queried(moment);
    }

    /// A later moment has come. The record speaks at it where it is that of this operation, or where its standing
    /// slot does not come to its action's end by then; else it speaks at the moment at which it spoke.
    pub fn see_moment_unless_ending(&mut self, operation: Req, moment: u64)
        ensures { self.new ≡ OperationRecords.at_moment_unless_ending operation.0 moment self.old }
    {
        if self.req.0 == operation.0 || self.expired_at(moment).is_none() {
            self.see_moment(moment);
        }
    }

    /// A run of the operation was started.
    pub fn see_start(&mut self, slot: Slot, moment: u64)
        ensures { self.new ≡ OperationRecords.operation_started slot moment self.old }
    {
        see_start(&mut self.levels, slot, moment);
        self.untried = self.untried.saturating_sub(1);
    }

    fn slot_now(&self, moment: u64) -> Option<Slot>
        ensures { result ≡ option_map (λ s. s.slot) (OperationRecords.standing_slot moment self.now) }
    {
        match self.standing_slot(moment) {
            Some(s) => Some(s.slot),
            None => None,
        }
    }

    /// A run was started of the slot at which the operation stands.
    fn start_standing(&mut self, moment: u64)
        ensures { self.new ≡ OperationRecords.start_standing moment self.old }
    {
        if let Some(slot) = self.slot_now(moment) {
            self.see_start(slot, moment);
        }
    }

    /// A run of the operation of this number was started, of the slot at which that stands. A record of another
    /// operation stays as it was.
    pub fn start_of(&mut self, operation: Req, moment: u64)
        ensures { self.new ≡ OperationRecords.only operation.0 (OperationRecords.start_standing moment) self.old }
    {
        if self.req.0 == operation.0 {
            self.start_standing(moment);
        }
    }

    /// A run of the operation has ended.
    pub fn see_exit(&mut self, slot: Slot, exit: Exit, listed: bool, moment: u64)
        ensures { self.new ≡ OperationRecords.operation_ended slot exit listed moment self.old }
    {
        let over = self.over;
        see_exit(&mut self.levels, slot, exit, listed, over, moment);
        self.rank_if_queried(moment);
    }

    /// A run of the operation of this number has ended. A record of another operation stays as it was.
    pub fn see_exit_of(&mut self, operation: Req, slot: Slot, exit: Exit, listed: bool, moment: u64)
        ensures { self.new ≡ OperationRecords.only operation.0
            (OperationRecords.operation_ended slot exit listed moment) self.old }
    {
        if self.req.0 == operation.0 {
            self.see_exit(slot, exit, listed, moment);
        }
    }

    /// An operator said that a target is down.
    pub fn see_confirm(&mut self, target: &str)
        ensures { self.new ≡ OperationRecords.operation_confirmed target.now self.old }
    {
        if self.target.is(target) {
            self.confirmed = true;
        }
    }

    /// The least request that waits was answered.
    pub fn see_reply(&mut self)
        ensures { self.new ≡ OperationRecords.replied self.old }
    {
        if !self.members.is_empty() {
            self.members.remove(0);
        }
    }

    /// The least request that waits for the operation of this number was answered. A record of another operation
    /// stays as it was.
    pub fn see_reply_of(&mut self, operation: Req)
        ensures { self.new ≡ OperationRecords.only operation.0 OperationRecords.replied self.old }
    {
        if self.req.0 == operation.0 {
            self.see_reply();
        }
    }

    /// One more request waits for its answer.
    pub fn join(&mut self, req: Req) -> Result<(), NoMemory>
        ensures ok { OnOk result (self.new ≡ OperationRecords.with_member req self.old) }
        ensures err { OnErr result (self.new ≡ self.old) }
    {
        self.members.push(req)?;
        Ok(())
    }

    /// The entries that it owes: a reply to each request that waits, and a start and an exit for each allowed try
    /// that was not started.
    pub fn owed(&self) -> u64
        ensures { result ≡ capped 64 (OperationRecords.owed_by self.now) }
    {
        let tries = u64::from(self.untried);
        (self.members.len() as u64).saturating_add(2 * tries)
    }

    /// Whether a request waits for its answer.
    pub fn is_waiting(&self) -> bool
        ensures { result ≡ OperationRecords.is_waiting self.now }
    {
        !self.members.is_empty()
    }

    /// The least request that waits.
    pub fn first_member(&self) -> Option<Req>
        ensures { result ≡ OperationRecords.first_member self.now }
    {
        if self.members.is_empty() {
            None
        } else {
            Some(self.members[0])
        }
    }
}
