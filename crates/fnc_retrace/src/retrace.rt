// A journal as it is read, with the follower beside it.

ghost use Rattle.std.specs.Prelude.{◌≡◌, ◌≤◌, ◌<◌, ◌↔◌, [], ◌∷◌, length};
ghost use Rattle.std.specs.Prelude.{IsOk, IfOk, IfErr, OnOk, OnErr};
ghost use Rattle.fnc_journal.specs.Lawful.{Lawful, fault};
ghost use Rattle.fnc_journal.specs.Prefix.{prefix};
ghost use Rattle.fnc_judge.specs.Verdicts.{IsLawful, fault_of};

use crate::follower::Follower;
use fnc_journal::limits::{GREATEST_JOURNAL, LEAST_JOURNAL};
use fnc_journal::{Entry, Event, Full, Journal, NoMemory};
use fnc_judge::{Verdict, judge_from};
use std::alloc::Global;
use std::marker::Model;

/// A journal that is read entry by entry. As long as the state machine writes the same entries of the same inputs, it
/// knows that they are lawful. Contracts see the journal, the newest entry first, and its limit.
#[derive(Drop)]
pub struct Retrace {
    journal: Journal,
    follower: Follower,
    agreed: u32,
}

impl Model for Retrace {
    ghost use Rattle.fnc_journal.specs.History.{Journaled};
    ghost use Rattle.fnc_retrace.specs.Agreeing.{Agrees};

    ghost Value = { Journaled };

    ghost view = { λ r. r.journal };

    ghost invariant = { λ r. Agrees r.agreed r.journal.history r.follower.history };
}

impl Retrace {
    /// An empty journal that may have `limit` entries. Room for them is taken here twice: for those that are read, and for
    /// those that are written beside them.
    pub fn with_limit(alloc: Global, limit: u32) -> Result<Retrace, NoMemory>
        requires least { LEAST_JOURNAL ≤ limit }
        requires most { limit ≤ GREATEST_JOURNAL }
        ensures history { IfOk result (λ r. r.history ≡ []) }
        ensures limit { IfOk result (λ r. r.limit ≡ limit) }
    {
        Ok(Retrace {
            journal: Journal::with_limit(alloc, limit)?,
            follower: Follower::with_limit(alloc, limit)?,
            agreed: 0,
        })
    }

    /// The journal as it was read.
    pub fn journal(&self) -> &Journal
        ensures history { result.now.history ≡ self.now.history }
        ensures limit { result.now.limit ≡ self.now.limit }
    {
        &self.journal
    }

    /// How many first entries the state machine wrote too. Up to the first one that it did not write these are all.
    pub fn agreed(&self) -> u32
        ensures within { result ≤ length self.now.history }
        ensures lawful { Lawful (prefix result self.now.history) }
    {
        self.agreed
    }

    /// Whether an entry should be given to `take` together with itself once more, as its line is read again: the state
    /// machine keeps the texts of what it is told, and has to be told this entry. Where it isn't given twice, it is
    /// judged by search, and so is all that comes after it.
    pub fn wants_again(&self, entry: &Entry) -> bool {
        if self.agreed < self.journal.len() || self.agreed < self.follower.len() {
            return false;
        }
        match &entry.event {
            Event::Device(_)
            | Event::Level(_)
            | Event::LevelGone(_)
            | Event::Agent(_)
            | Event::Ask(_)
            | Event::Confirm(_) => true,
            _ => false,
        }
    }

    /// Takes the next entry. `again` may be the same entry once more, as `wants_again` says; one that differs does no
    /// harm. The entry is refused exactly where the journal is full, and then nothing has changed.
    pub fn take(&mut self, entry: Entry, again: Option<Entry>) -> Result<(), Full>
        ensures ok { OnOk result (self.new.history ≡ entry ∷ self.old.history) }
        ensures room { IsOk result ↔ (length self.old.history < self.old.limit) }
        ensures full { IfErr result (λ full. full
            ≡ record { entries = self.old.limit; owed = 0; need = 1; limit = self.old.limit }) }
        ensures err { OnErr result (self.new ≡ self.old) }
        ensures limit { self.new.limit ≡ self.old.limit }
    {
        let limit = self.journal.limit();
        if self.journal.len() >= limit {
            return Err(Full {
                entries: limit,
                owed: 0,
                need: 1,
                limit,
            });
        }
        let read = self.journal.len();
        self.agreed = self.follower.agreed_with(self.agreed, read, &entry, again);
        self.journal.push(entry);
        Ok(())
    }

    /// What is said of the journal: which entry is the first that breaks a rule, and the first rule that it breaks. It
    /// takes no memory, and searches only from the first entry on that the state machine did not write.
    pub fn verdict(&self) -> Verdict
        ensures lawful { IsLawful result ↔ Lawful self.now.history }
        ensures fault { fault_of result ≡ fault self.now.history }
    {
        judge_from(&self.journal, self.agreed)
    }
}
