// What is kept of one level of an operation.

ghost use Rattle.std.specs.Prelude.{◌≡◌, ◌<◌, ◌^◌, map, find, not};
ghost use Rattle.std.specs.List.{list_all, list_any};
ghost use Rattle.std.specs.Option.{option_copied};
ghost use Rattle.fnc_records.specs.SlotRecords as SlotRecords;
ghost use Rattle.fnc_records.specs.LevelRecords as LevelRecords;

use crate::slot::SlotRecord;
use fnc_journal::{Exit, Kind, Slot};
use std::marker::Model;

/// What is kept of a level, or of a candidate, which becomes a level of one device once all queries
/// are concluded and it is capable. `query` is the slot that asks the candidate. `tried` is whether it is one
/// of the levels that the operation tries, and `index` its number among them.
#[derive(Debug, Drop)]
pub struct LevelRecord {
    pub query: Option<SlotRecord>,
    pub tried: bool,
    pub index: u8,
    pub unfit: bool,
    pub firsts: Vec<SlotRecord>,
    pub ons: Vec<SlotRecord>,
}

impl Model for LevelRecord {
    ghost use Rattle.fnc_records.specs.KeptLevel.{KeptLevel};

    ghost Value = { KeptLevel };

    ghost view = { λ l. record {
      query = l.query;
      tried = l.tried;
      index = l.index;
      unfit = l.unfit;
      firsts = l.firsts.items;
      ons = l.ons.items;
    } };
}

fn all_succeeded(slots: &[SlotRecord]) -> bool
    ensures { result ≡ list_all (λ s. s.succeeded) slots.now }
{
    slots.iter().all(|s| s.succeeded)
}

fn all_concluded(slots: &[SlotRecord], moment: u64) -> bool
    ensures { result ≡ list_all (SlotRecords.is_concluded moment) slots.now }
{
    slots.iter().all(|s| s.is_concluded(moment))
}

fn any_failed(slots: &[SlotRecord], moment: u64) -> bool
    ensures { result ≡ list_any (LevelRecords.is_lost_by moment) slots.now }
{
    slots.iter().any(|s| s.is_spent(moment) && !s.succeeded)
}

fn first_not_succeeded(slots: &[SlotRecord]) -> Option<&SlotRecord>
    ensures { option_copied result ≡ find (λ s. not s.succeeded) slots.now }
{
    slots.iter().find(|s| !s.succeeded)
}

fn first_not_concluded(slots: &[SlotRecord], moment: u64) -> Option<&SlotRecord>
    ensures { option_copied result ≡ find (λ s. not (SlotRecords.is_concluded moment s)) slots.now }
{
    slots.iter().find(|s| !s.is_concluded(moment))
}

/// The greatest of a moment and those at which the concluded slots were concluded.
fn latest(slots: &[SlotRecord], begin: u64, moment: u64, at: u64) -> u64
    ensures { result ≡ LevelRecords.latest begin moment at slots.now }
{
    let mut latest = at;
    for s in slots {
        latest = s.later(begin, moment, latest);
    }
    latest
}

fn see_start(slots: &mut [SlotRecord], slot: Slot, moment: u64)
    ensures { slots.new ≡ map (SlotRecords.started slot moment) slots.old }
{
    for s in slots.iter_mut() {
        s.see_start(slot, moment);
    }
}

fn see_exit(slots: &mut [SlotRecord], slot: Slot, exit: Exit, listed: bool, over: u64, moment: u64)
    ensures { slots.new ≡ map (SlotRecords.ended slot exit listed over moment) slots.old }
{
    for s in slots.iter_mut() {
        s.see_exit(slot, exit, listed, over, moment);
    }
}

fn number(slots: &mut [SlotRecord], index: u8)
    ensures { slots.new ≡ map (SlotRecords.at_level index) slots.old }
{
    for s in slots.iter_mut() {
        s.take_level(index);
    }
}

impl LevelRecord {
    /// Whether no query is left to conclude before it is known whether it is tried.
    pub fn is_queried(&self, moment: u64) -> bool
        ensures { result ≡ LevelRecords.is_queried moment self.now }
    {
        match &self.query {
            None => true,
            Some(query) => query.is_concluded(moment),
        }
    }

    /// Its query, where that is not concluded.
    pub fn open_query(&self, moment: u64) -> Option<&SlotRecord>
        ensures { option_copied result ≡ LevelRecords.open_query moment self.now }
    {
        match &self.query {
            None => None,
            Some(query) => {
                if query.is_concluded(moment) {
                    None
                } else {
                    Some(query)
                }
            }
        }
    }

    /// Whether its device can fence the target, as far as its query says.
    pub fn is_capable(&self) -> bool
        ensures { result ≡ LevelRecords.is_capable self.now }
    {
        match &self.query {
            None => true,
            Some(query) => match query.kind {
                Kind::List => query.listed,
                _ => query.succeeded,
            },
        }
    }

    /// Whether a device is unfit, or an Act or Off slot is spent and not confirmed.
    pub fn is_lost(&self, moment: u64) -> bool
        ensures { result ≡ LevelRecords.is_lost moment self.now }
    {
        self.unfit || any_failed(&self.firsts, moment)
    }

    /// Whether its Act or Off slots are confirmed, and its On slots concluded or the total over.
    pub fn is_done(&self, over: u64, moment: u64) -> bool
        ensures { result ≡ LevelRecords.is_done over moment self.now }
    {
        all_succeeded(&self.firsts) && (all_concluded(&self.ons, moment) || over <= moment)
    }

    /// The slot at which an operation stands in this level.
    pub fn standing(&self, moment: u64) -> Option<&SlotRecord>
        ensures { option_copied result ≡ LevelRecords.standing_in moment self.now }
    {
        match first_not_succeeded(&self.firsts) {
            Some(s) => Some(s),
            None => first_not_concluded(&self.ons, moment),
        }
    }

    /// The greatest of a moment and those at which its concluded slots were concluded.
    pub fn latest(&self, begin: u64, moment: u64, at: u64) -> u64
        ensures { result ≡ LevelRecords.latest_in begin moment at self.now }
    {
        latest(
            &self.ons,
            begin,
            moment,
            latest(&self.firsts, begin, moment, at),
        )
    }

    /// The greatest of a moment and those at which its concluded slots were concluded, where it is tried; else the
    /// moment.
    pub fn latest_tried(&self, begin: u64, moment: u64, at: u64) -> u64
        ensures { result ≡ LevelRecords.latest_tried begin moment at self.now }
    {
        if self.tried {
            self.latest(begin, moment, at)
        } else {
            at
        }
    }

    /// The greatest of a moment and that at which its query was concluded.
    pub fn latest_query(&self, begin: u64, moment: u64, at: u64) -> u64
        ensures { result ≡ LevelRecords.latest_query begin moment at self.now }
    {
        match &self.query {
            None => at,
            Some(query) => query.later(begin, moment, at),
        }
    }

    /// It becomes the level of this number.
    fn take_rank(&mut self, index: u8)
        ensures { self.new ≡ LevelRecords.ranked index self.old }
    {
        self.tried = true;
        self.index = index;
        number(&mut self.firsts, index);
    }

    /// Where its device is capable it becomes the level of this number. The number of the next one.
    pub fn rank_from(&mut self, index: u8) -> u8
        ensures level { self.new ≡ LevelRecords.ranked_if_capable index self.old }
        ensures next { result ≡ LevelRecords.next_rank index self.old }
    {
        if self.is_capable() {
            self.take_rank(index);
            index.saturating_add(1)
        } else {
            index
        }
    }

    /// A run of the operation was started, of one of these slots or of another one.
    pub fn see_start(&mut self, slot: Slot, moment: u64)
        ensures { self.new ≡ LevelRecords.level_started slot moment self.old }
    {
        if let Some(query) = &mut self.query {
            query.see_start(slot, moment);
        }
        see_start(&mut self.firsts, slot, moment);
        see_start(&mut self.ons, slot, moment);
    }

    /// A run of the operation has ended, of one of these slots or of another one.
    pub fn see_exit(&mut self, slot: Slot, exit: Exit, listed: bool, over: u64, moment: u64)
        ensures { self.new ≡ LevelRecords.level_ended slot exit listed over moment self.old }
    {
        if let Some(query) = &mut self.query {
            query.see_exit(slot, exit, listed, over, moment);
        }
        see_exit(&mut self.firsts, slot, exit, listed, over, moment);
        see_exit(&mut self.ons, slot, exit, listed, over, moment);
    }
}
