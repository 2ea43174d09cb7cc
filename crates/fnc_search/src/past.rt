// What lies before an entry of a journal.

ghost use Rattle.std.specs.Prelude.{◌≡◌, ◌≤◌, ◌<◌, ◌^◌, IfSome, Some, length};
ghost use Rattle.fnc_journal.specs.Found.{entry_at};
ghost use Rattle.fnc_journal.specs.Links as Links;
ghost use Rattle.fnc_journal.specs.Prefix.{prefix};
ghost use Rattle.fnc_search.specs.Setup.{setup_end};
ghost use Rattle.fnc_search.specs.Within.{within};

use fnc_journal::{Entry, Journal, Reg, Req, Run};
use std::marker::Model;

/// The first entries of a journal, as many as `len` says. Contracts see the list of them, the newest first.
/// From `setup` on no entry speaks of devices or levels.
#[derive(Drop)]
pub struct Past<'a> {
    journal: &'a Journal,
    len: u32,
    setup: u32,
}

impl<'a> Model for Past<'a> {
    ghost use Rattle.std.specs.Prelude.{◌≤◌, length};
    ghost use Rattle.fnc_journal.specs.History.{History};
    ghost use Rattle.fnc_journal.specs.Prefix.{prefix};
    ghost use Rattle.fnc_search.specs.Setup.{setup_end};

    ghost Value = { History };

    ghost view = { λ p. prefix p.len p.journal.now.history };

    ghost invariant = { λ p. (p.len ≤ length p.journal.now.history) × (p.setup ≤ p.len)
        × (setup_end (prefix p.len p.journal.now.history) ≤ p.setup) };
}

impl<'a> Past<'a> {
    /// The first entries of a journal.
    pub fn of(journal: &'a Journal, len: u32) -> Past<'a>
        requires { len ≤ length journal.now.history }
        ensures { result ≡ prefix len journal.now.history }
    {
        Past {
            journal,
            len,
            setup: len,
        }
    }

    /// The first entries of a journal, of which those from an index on do not speak of devices or levels.
    pub fn set_up(journal: &'a Journal, len: u32, setup: u32) -> Past<'a>
        requires within { len ≤ length journal.now.history }
        requires fewer { setup ≤ len }
        requires end { setup_end (prefix len journal.now.history) ≤ setup }
        ensures { result ≡ prefix len journal.now.history }
    {
        Past {
            journal,
            len,
            setup,
        }
    }

    /// All entries of a journal.
    pub fn whole(journal: &'a Journal) -> Past<'a>
        ensures { result ≡ journal.now.history }
    {
        Past::of(journal, journal.len())
    }

    /// How many entries there are.
    pub fn len(&self) -> u32
        ensures { result ≡ length self.now }
    {
        self.len
    }

    /// How many entries there are up to the last that speaks of devices or levels, or more.
    pub fn setup(&self) -> u32
        ensures within { result ≤ length self.now }
        ensures end { setup_end self.now ≤ result }
    {
        self.setup
    }

    /// The entry of an index.
    pub fn entry(&self, index: u32) -> &'a Entry
        requires { index < length self.now }
        ensures { entry_at index self.now ≡ Some result.now }
    {
        self.journal.entry(index)
    }

    /// What lies before the entry of an index.
    pub fn before(&self, index: u32) -> Past<'a>
        requires { index ≤ length self.now }
        ensures { result ≡ prefix index self.now }
    {
        Past {
            journal: self.journal,
            len: index,
            setup: self.setup.min(index),
        }
    }

    /// The same entries once more.
    pub fn again(&self) -> Past<'a>
        ensures { result ≡ self.now }
    {
        Past {
            journal: self.journal,
            len: self.len,
            setup: self.setup,
        }
    }

    /// An index of the journal, where it is that of one of these entries.
    fn within(&self, at: Option<u32>) -> Option<u32>
        ensures { result ≡ within (length self.now) at }
    {
        let index = at?;
        if index < self.len() {
            Some(index)
        } else {
            None
        }
    }

    /// Where the request of a number is asked first.
    pub fn ask_at(&self, req: u32) -> Option<u32>
        ensures at { result ≡ Links.ask_at req self.now }
        ensures within { IfSome result (λ i. i < length self.now) }
    {
        self.within(self.journal.ask_at(Req(req)))
    }

    /// Where it is answered first.
    pub fn reply_at(&self, req: u32) -> Option<u32>
        ensures at { result ≡ Links.reply_at req self.now }
        ensures within { IfSome result (λ i. i < length self.now) }
    {
        self.within(self.journal.reply_at(Req(req)))
    }

    /// Where the run of a number starts first.
    pub fn start_at(&self, run: u32) -> Option<u32>
        ensures at { result ≡ Links.start_at run self.now }
        ensures within { IfSome result (λ i. i < length self.now) }
    {
        self.within(self.journal.start_at(Run(run)))
    }

    /// Where it ends first.
    pub fn exit_at(&self, run: u32) -> Option<u32>
        ensures at { result ≡ Links.exit_at run self.now }
        ensures within { IfSome result (λ i. i < length self.now) }
    {
        self.within(self.journal.exit_at(Run(run)))
    }

    /// Where the newest entry of an operation stands.
    pub fn latest(&self, req: u32) -> Option<u32>
        ensures at { result ≡ Links.latest req self.now }
        ensures within { IfSome result (λ i. i < length self.now) }
    {
        latest_below(self.journal, self.len, req)
    }

    /// Where the entry of the same operation stands that comes before an entry.
    pub fn earlier(&self, index: u32) -> Option<u32>
        requires { index < length self.now }
        ensures { result ≡ Links.earlier index self.now }
    {
        self.journal.earlier(index)
    }

    /// Where the registration of a number is made first.
    pub fn device_at(&self, reg: u32) -> Option<u32>
        ensures at { result ≡ Links.device_at reg self.now }
        ensures within { IfSome result (λ i. i < length self.now) }
    {
        self.within(self.journal.device_at(Reg(reg)))
    }
}

/// Where the newest entry of an operation stands among the first entries of a journal.
fn latest_below(journal: &Journal, len: u32, req: u32) -> Option<u32>
    requires { len ≤ length journal.now.history }
    ensures { result ≡ Links.latest req (prefix len journal.now.history) }
{
    let mut found = journal.latest(Req(req));
    while let Some(at) = found {
        if at < len {
            return found;
        }
        found = journal.earlier(at);
    }
    None
}
