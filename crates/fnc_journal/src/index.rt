// The index of a journal: where each thing stands in it.

ghost use Rattle.std.specs.Prelude.{ℕ, ◌≡◌, ◌<◌, ◌∷◌, [], length, IfOk, option_map};
ghost use Rattle.fnc_journal.specs.History.{History};
ghost use Rattle.fnc_journal.specs.Links.{operation_here};
ghost use Rattle.fnc_journal.specs.Heads as Heads;
ghost use Rattle.fnc_journal.specs.Index.{IsIndex};

use crate::chains::Chains;
use crate::entry::Req;
use crate::event::Event;
use crate::firsts::Firsts;
use crate::homes::Homes;
use crate::lanes::{Lanes, lowers};
use crate::outcome::NoMemory;
use std::alloc::Global;

/// What is looked up in a journal, kept entry by entry.
#[derive(Debug, Drop)]
pub(crate) struct Index {
    pub firsts: Firsts,
    pub chains: Chains,
    pub lanes: Lanes,
    pub homes: Homes,
}

impl Index {
    /// The index of an empty journal. The room that it needs up to a limit of entries is taken here.
    pub fn with_room(alloc: Global, room: u32) -> Result<Index, NoMemory>
        ensures { IfOk result (λ x. IsIndex room [] x) }
    {
        let firsts = Firsts::with_room(alloc, room)?;
        let chains = Chains::with_room(alloc, room)?;
        let lanes = Lanes::with_room(alloc, room)?;
        let homes = Homes::with_room(alloc, room)?;
        Ok(Index {
            firsts,
            chains,
            lanes,
            homes,
        })
    }

    /// An entry comes: its event, the operation that it is of, the least registration so far of the name
    /// that it registers, and its index.
    pub fn enter(&mut self, event: &Event, operation: Option<Req>, least: Option<u32>, at: u32)
        ensures { (room moment : ℕ) (h : History) → length h ≡ at → at < room →
            option_map (λ o. o.0) operation ≡ operation_here h event.now → least ≡ Heads.least_here h event.now →
            IsIndex room h self.old → IsIndex room (record { moment = moment; event = event.now } ∷ h) self.new }
    {
        self.firsts.enter(event, at);
        self.chains.enter(operation, at);
        self.lanes.enter(lowers(event, least), at);
        self.homes.enter(event, least);
    }
}
