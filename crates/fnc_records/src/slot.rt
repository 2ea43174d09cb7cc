// What is kept of one slot of an operation.

ghost use Rattle.std.specs.Prelude.{◌≡◌};
ghost use Rattle.fnc_journal.specs.Missing as Missing;
ghost use Rattle.fnc_records.specs.SlotRecords as SlotRecords;
ghost use Rattle.fnc_records.specs.OperationRecords as OperationRecords;

use fnc_journal::{Exit, Kind, Reg, Slot};

/// The last run of a slot: none yet, alive since a moment, or ended at one.
#[derive(Clone, Copy, Debug, PartialEq, Eq)]
pub enum LastRun {
    NoRun,
    Alive(u64),
    EndedAt(u64),
}

impl LastRun {
    /// Whether no run is alive.
    pub fn is_idle(self) -> bool
        ensures { result ≡ OperationRecords.is_idle self }
    {
        match self {
            LastRun::Alive(_) => false,
            _ => true,
        }
    }
}

/// What is kept of a slot. The first six fields are its part of the plan and never change: its device's
/// registration, the action that it runs there, the time and the tries which that is allowed, and the
/// delay before its first try. The others are what its runs have said: `end` is the end of its action,
/// there once it was started, and `listed` is whether a success listed the node.
#[derive(Clone, Copy, Debug)]
pub struct SlotRecord {
    pub slot: Slot,
    pub reg: Reg,
    pub kind: Kind,
    pub time: u64,
    pub tries: u8,
    pub delay: u64,
    pub runs: u32,
    pub failed: u32,
    pub succeeded: bool,
    pub listed: bool,
    pub end: Option<u64>,
    pub last: LastRun,
    pub succeeded_at: Option<u64>,
    pub failed_at: Option<u64>,
}

/// What was there earlier, or where nothing was the moment.
fn earlier_or(earlier: Option<u64>, moment: u64) -> Option<u64>
    ensures { result ≡ SlotRecords.earlier_or earlier moment }
{
    match earlier {
        Some(at) => Some(at),
        None => Some(moment),
    }
}

/// The lesser of two moments, or the one that is there.
fn least_of(first: Option<u64>, second: Option<u64>) -> Option<u64>
    ensures { result ≡ Missing.least_of first second }
{
    match (first, second) {
        (Some(a), Some(b)) => Some(a.min(b)),
        (Some(a), None) => Some(a),
        (None, b) => b,
    }
}

impl SlotRecord {
    fn has_ended(&self, moment: u64) -> bool
        ensures { result ≡ Missing.has_come self.now.end moment }
    {
        match self.end {
            None => false,
            Some(end) => end <= moment,
        }
    }

    /// Its action's end, where that has come.
    pub fn end_by(&self, moment: u64) -> Option<u64>
        ensures { result ≡ SlotRecords.come_by moment self.now.end }
    {
        match self.end {
            None => None,
            Some(end) => { if end <= moment { Some(end) } else { None } }
        }
    }

    /// Whether its allowed tries failed or its action's end has come.
    pub fn is_spent(&self, moment: u64) -> bool
        ensures { result ≡ SlotRecords.is_spent moment self.now }
    {
        self.failed == u32::from(self.tries) || self.has_ended(moment)
    }

    /// Whether it has succeeded or is spent.
    pub fn is_concluded(&self, moment: u64) -> bool
        ensures { result ≡ SlotRecords.is_concluded moment self.now }
    {
        self.succeeded || self.is_spent(moment)
    }

    /// When a concluded slot was concluded: by its success, its last allowed failure or its end, whichever
    /// came first.
    pub fn concluded_at(&self, begin: u64) -> u64
        ensures { result ≡ SlotRecords.concluded_at begin self.now }
    {
        match least_of(self.succeeded_at, least_of(self.failed_at, self.end)) {
            Some(at) => at,
            None => begin,
        }
    }

    /// The greater of a moment and that at which it was concluded, where it is.
    pub fn later(&self, begin: u64, moment: u64, at: u64) -> u64
        ensures { result ≡ SlotRecords.later begin moment at self.now }
    {
        if self.is_concluded(moment) {
            at.max(self.concluded_at(begin))
        } else {
            at
        }
    }

    /// Its level is known now.
    pub fn take_level(&mut self, index: u8)
        ensures { self.new ≡ SlotRecords.at_level index self.old }
    {
        self.slot.level = index;
    }

    /// The slot's limit, once it was started: its action's end, or the moment at which the operation's
    /// total is over where that comes first.
    pub fn limit(&self, over: u64) -> Option<u64>
        ensures { result ≡ SlotRecords.limit over self.now }
    {
        match self.end {
            None => None,
            Some(end) => Some(over.min(end)),
        }
    }

    /// Which of its tries the next one is, counted from 1.
    pub fn attempt(&self) -> u8
        ensures { result ≡ SlotRecords.attempt self.now }
    {
        if self.runs < 255 {
            self.runs as u8 + 1
        } else {
            255
        }
    }

    /// When its next try is ready, where the operation stands here since a moment; while a run is alive,
    /// when that was started.
    pub fn ready(&self, since: u64) -> u64
        ensures { result ≡ SlotRecords.ready since self.now }
    {
        match self.last {
            LastRun::NoRun => since.saturating_add(self.delay),
            LastRun::Alive(at) => at,
            LastRun::EndedAt(at) => at,
        }
    }

    fn is_in_time(&self, over: u64, moment: u64) -> bool
        ensures { result ≡ SlotRecords.is_in_time over moment self.now.end }
    {
        match self.end {
            None => false,
            Some(end) => moment < over && moment < end,
        }
    }

    fn succeed(&mut self, listed: bool, moment: u64)
        ensures { self.new ≡ SlotRecords.succeeded_now listed moment self.old }
    {
        self.succeeded = true;
        self.listed = listed || self.listed;
        self.last = LastRun::EndedAt(moment);
        self.succeeded_at = earlier_or(self.succeeded_at, moment);
    }

    fn fail(&mut self, moment: u64)
        ensures { self.new ≡ SlotRecords.failed_now moment self.old }
    {
        self.failed = self.failed.saturating_add(1);
        self.last = LastRun::EndedAt(moment);
        if self.failed == u32::from(self.tries) {
            self.failed_at = earlier_or(self.failed_at, moment);
        }
    }

    /// A run of the operation was started, of this slot or of another one.
    pub fn see_start(&mut self, slot: Slot, moment: u64)
        ensures { self.new ≡ SlotRecords.started slot moment self.old }
    {
        if self.slot.is(slot) {
            self.runs = self.runs.saturating_add(1);
            self.last = LastRun::Alive(moment);
            self.end = earlier_or(self.end, moment.saturating_add(self.time));
        }
    }

    /// A run of the operation has ended, of this slot or of another one.
    pub fn see_exit(&mut self, slot: Slot, exit: Exit, listed: bool, over: u64, moment: u64)
        ensures { self.new ≡ SlotRecords.ended slot exit listed over moment self.old }
    {
        if self.slot.is(slot) {
            if !self.is_in_time(over, moment) {
                self.last = LastRun::EndedAt(moment);
            } else if exit.is_success_of(self.kind) {
                self.succeed(listed, moment);
            } else {
                self.fail(moment);
            }
        }
    }
}
