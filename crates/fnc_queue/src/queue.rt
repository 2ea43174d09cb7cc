// The queue.

ghost use Rattle.std.specs.Prelude.{◌≡◌, ◌<◌, OnOk, OnErr, IfSome, is_some, false};
ghost use Rattle.std.specs.Option.{option_copied};
ghost use Rattle.fnc_queue.specs.Items as Items;
ghost use Rattle.fnc_queue.specs.Lanes as Lanes;
ghost use Rattle.fnc_queue.specs.Places.{IsFirst, any_may_start, first_of};
ghost use Rattle.fnc_queue.specs.Queued.{empty_queue, reserved, added, withdrawn, started, ended};

use crate::waiting::Waiting;
use crate::{items, lanes, lines};
use fnc_journal::{NoMemory, Reg, Req};
use std::alloc::Global;
use std::marker::Model;

/// The tries that wait for a start and the runs that are alive. Contracts see the tries in rising order
/// of their operations' numbers, the lanes of the alive runs in rising order, and the room that is left.
#[derive(Debug, Drop)]
pub struct Queue {
    waiting: Vec<Waiting>,
    // The same items in line: for each lane and limit the one that can start first stands first.
    lines: Vec<Waiting>,
    alive: Vec<Reg>,
    spare: u32,
}

impl Model for Queue {
    ghost use Rattle.std.specs.Prelude.{◌≡◌, ◌≤◌, ◌<◌, ◌+◌, ◌^◌, vec_len, vec_capacity};
    ghost use Rattle.fnc_queue.specs.Items.{InOrder};
    ghost use Rattle.fnc_queue.specs.Lanes.{InLanes};
    ghost use Rattle.fnc_queue.specs.Lines.{IsLined};
    ghost use Rattle.fnc_queue.specs.Queued.{Queued};

    ghost Value = { Queued };

    ghost view = { λ q. record { waiting = q.waiting.items; alive = q.alive.items; spare = q.spare } };

    ghost invariant = { λ q.
        (vec_len q.waiting + vec_len q.alive + q.spare ≤ vec_capacity q.waiting)
        × (vec_len q.lines ≡ vec_len q.waiting)
        × (vec_len q.waiting + vec_len q.alive + q.spare ≤ vec_capacity q.lines)
        × (vec_len q.waiting + vec_len q.alive + q.spare ≤ vec_capacity q.alive)
        × (vec_len q.waiting + vec_len q.alive + q.spare < 2 ^ 32)
        × InOrder q.waiting.items
        × InLanes q.alive.items
        × IsLined q.waiting.items q.lines.items };
}

impl Queue {
    /// A queue without items and without room.
    pub fn new(alloc: Global) -> Queue
        ensures { result ≡ empty_queue }
    {
        Queue {
            waiting: Vec::new(alloc),
            lines: Vec::new(alloc),
            alive: Vec::new(alloc),
            spare: 0,
        }
    }

    /// Takes room, so that at least so many more items may be added. A queue has fewer than 2^32 items
    /// and alive runs; where that would not do, no room is had.
    pub fn reserve(&mut self, items: u32) -> Result<(), NoMemory>
        ensures ok { OnOk result (self.new ≡ reserved items self.old) }
        ensures err { OnErr result (self.new ≡ self.old) }
    {
        if self.spare >= items {
            return Ok(());
        }
        let held = self.waiting.len() + self.alive.len();
        if held > (u32::MAX - items) as usize {
            return Err(NoMemory);
        }
        self.waiting.reserve(self.alive.len() + items as usize)?;
        self.lines.reserve(self.alive.len() + items as usize)?;
        self.alive.reserve(self.waiting.len() + items as usize)?;
        self.spare = items;
        Ok(())
    }

    /// Adds an item, in room that was taken before. It takes one place.
    pub fn add(&mut self, item: Waiting)
        requires room { 0 < self.old.spare }
        requires other { Items.is_waiting item.req.0 self.old.waiting ≡ false }
        ensures after { self.new ≡ added item self.old }
        ensures changes { Items.Changes item.req.0 (Some item) self.old.waiting self.new.waiting }
    {
        items::insert(&mut self.waiting, item);
        lines::insert(&mut self.lines, item);
        self.spare -= 1;
    }

    /// Takes the item of an operation out, and gives its place back. None exactly where it has none.
    pub fn withdraw(&mut self, req: Req) -> Option<Waiting>
        ensures item { result ≡ Items.item_of req.0 self.old.waiting }
        ensures some { is_some result ≡ Items.is_waiting req.0 self.old.waiting }
        ensures after { self.new ≡ withdrawn req.0 self.old }
        ensures changes { Items.Changes req.0 None self.old.waiting self.new.waiting }
    {
        let item = items::remove(&mut self.waiting, req)?;
        lines::remove(&mut self.lines, &item);
        self.spare += 1;
        Some(item)
    }

    /// The item that starts first at a moment: of those that are ready on a lane with room for one more
    /// run, the one that has been ready for the longest, and of equals that of the least operation. None
    /// exactly where there is none.
    pub fn first(&self, moment: u64) -> Option<&Waiting>
        ensures item { option_copied result ≡ first_of moment self.now }
        ensures some { is_some result ≡ any_may_start moment self.now }
        ensures least { IfSome result (λ item. IsFirst moment self.now item.now) }
        ensures own { IfSome result (λ item. Items.item_of item.now.req.0 self.now.waiting ≡ Some item.now) }
    {
        lines::first_among(&self.lines, moment, &self.alive)
    }

    /// Takes that item, which has been started: one more run of its lane is alive, in the item's place.
    pub fn take_first(&mut self, moment: u64) -> Option<Waiting>
        ensures item { result ≡ first_of moment self.old }
        ensures some { is_some result ≡ any_may_start moment self.old }
        ensures least { IfSome result (IsFirst moment self.old) }
        ensures own { IfSome result (λ item. Items.item_of item.req.0 self.old.waiting ≡ Some item) }
        ensures after { self.new ≡ started (first_of moment self.old) self.old }
        ensures changes { IfSome result (λ item. Items.Changes item.req.0 None self.old.waiting self.new.waiting) }
        ensures counts { IfSome result (λ item. Lanes.CountsOneMore item.lane.0 self.old.alive self.new.alive) }
    {
        let first = *self.first(moment)?;
        items::remove(&mut self.waiting, first.req);
        lines::remove(&mut self.lines, &first);
        lanes::insert(&mut self.alive, first.lane);
        Some(first)
    }

    /// A run of a lane has ended, and gives its place back.
    pub fn ended(&mut self, lane: Reg)
        requires { 0 < Lanes.lane_count lane.0 self.old.alive }
        ensures after { self.new ≡ ended lane.0 self.old }
        ensures counts { Lanes.CountsOneMore lane.0 self.new.alive self.old.alive }
    {
        lanes::remove(&mut self.alive, lane);
        self.spare += 1;
    }

    /// How many runs of a lane are alive.
    pub fn alive(&self, lane: Reg) -> u32
        ensures { result ≡ Lanes.lane_count lane.0 self.now.alive }
    {
        lanes::count(&self.alive, lane)
    }
}
