// The journal: a list of entries that grows at its end.

use crate::entry::Entry;
use crate::index::Index;
use crate::limits::{GREATEST_JOURNAL, LEAST_JOURNAL};
use crate::outcome::NoMemory;
use std::alloc::Global;
use std::marker::Model;

/// The journal. Contracts see its entries, the newest first, and its limit.
#[derive(Debug, Drop)]
pub struct Journal {
    entries: Vec<Entry>,
    index: Index,
    limit: u32,
}

impl Model for Journal {
    ghost use Rattle.std.specs.Prelude.{ℕ, List, reverse, vec_len, vec_capacity, ◌≤◌, ◌<◌, ◌^◌};
    ghost use Rattle.fnc_journal.specs.History.{Journaled};
    ghost use Rattle.fnc_journal.specs.Index.{IsIndex};

    ghost Value = { Journaled };

    ghost view = { λ j. record { history = reverse j.entries.items; limit = j.limit } };

    ghost invariant = { λ j. (vec_len j.entries ≤ j.limit) × (j.limit ≤ vec_capacity j.entries) × (j.limit < 2 ^ 32)
        × IsIndex j.limit (reverse j.entries.items) j.index };
}

ghost use Rattle.std.specs.Prelude.{◌≡◌, ◌<◌, ◌≤◌, ◌∷◌, [], length, slice_get, Some, IfOk};
ghost use Rattle.std.specs.Option.{option_copied};
ghost use Rattle.fnc_journal.specs.Found as Found;
ghost use Rattle.fnc_journal.specs.Index.{IsIndex};

impl Journal {
    /// An empty journal with room for `limit` entries, all of which is taken here.
    pub fn with_limit(alloc: Global, limit: u32) -> Result<Journal, NoMemory>
        requires least { LEAST_JOURNAL ≤ limit }
        requires most { limit ≤ GREATEST_JOURNAL }
        ensures history { IfOk result (λ j. j.history ≡ []) }
        ensures limit { IfOk result (λ j. j.limit ≡ limit) }
    {
        let entries = Vec::with_capacity(alloc, limit as usize)?;
        let index = Index::with_room(alloc, limit)?;
        Ok(Journal {
            entries,
            index,
            limit,
        })
    }

    /// Adds an entry at the end, in room that `with_limit` took.
    pub fn push(&mut self, entry: Entry)
        requires { length self.old.history < self.old.limit }
        ensures history { self.new.history ≡ entry ∷ self.old.history }
        ensures limit { self.new.limit ≡ self.old.limit }
    {
        let at = self.len();
        let operation = self.operation_of(&entry.event);
        let least = self.least_of(&entry.event);
        self.index.enter(&entry.event, operation, least, at);
        self.entries.push_reserved(entry);
    }

    /// How many entries it has.
    pub fn len(&self) -> u32
        ensures { result ≡ length self.now.history }
    {
        self.entries.len() as u32
    }

    /// The entry of an index, counted from 0 at the oldest. None at or past the end.
    pub fn get(&self, index: u32) -> Option<&Entry>
        ensures { option_copied result ≡ Found.entry_at index self.now.history }
    {
        get_in(&self.entries, index)
    }

    /// The entry of an index below the length.
    pub fn entry(&self, index: u32) -> &Entry
        requires { index < length self.now.history }
        ensures { Found.entry_at index self.now.history ≡ Some result.now }
    {
        entry_in(&self.entries, index)
    }

    /// How many entries it may have.
    pub fn limit(&self) -> u32
        ensures { result ≡ self.now.limit }
    {
        self.limit
    }

    /// Where each thing stands in it.
    pub(crate) fn index(&self) -> &Index
        ensures { IsIndex self.now.limit self.now.history result.now }
    {
        &self.index
    }
}

fn get_in(entries: &[Entry], index: u32) -> Option<&Entry>
    ensures { option_copied result ≡ slice_get entries.now index }
{
    entries.get(index as usize)
}

fn entry_in(entries: &[Entry], index: u32) -> &Entry
    requires { index < length entries.now }
    ensures { slice_get entries.now index ≡ Some result.now }
{
    &entries[index as usize]
}
