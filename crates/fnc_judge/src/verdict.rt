// What is said of a whole journal.

ghost use Rattle.std.specs.Prelude.{◌≡◌, ◌↔◌, ◌≤◌, length};
ghost use Rattle.fnc_journal.specs.Lawful.{Lawful, fault};
ghost use Rattle.fnc_journal.specs.Prefix.{prefix};
ghost use Rattle.fnc_judge.specs.Verdicts.{IsLawful, fault_of};

use crate::rules::broken;
use crate::setup::{setup_after, setup_to};
use fnc_journal::{Journal, Rule};
use fnc_search::Past;

/// What is said of a journal: that it is lawful, or which entry is the first that breaks a rule, and
/// the first rule that it breaks.
#[derive(Clone, Copy, Debug, PartialEq, Eq)]
pub enum Verdict {
    Lawful,
    Unlawful { index: u32, rule: Rule },
}

/// Judges a journal, which may come from anywhere. It searches the entries before each entry anew,
/// and takes no memory.
pub fn judge(journal: &Journal) -> Verdict
    ensures lawful { IsLawful result ↔ Lawful journal.now.history }
    ensures fault { fault_of result ≡ fault journal.now.history }
{
    judge_from(journal, 0)
}

/// Judges a journal whose first `from` entries are known to be lawful: these are not searched for a fault, and where they
/// are all of it the answer comes at once.
pub fn judge_from(journal: &Journal, from: u32) -> Verdict
    requires within { from ≤ length journal.now.history }
    requires begun { Lawful (prefix from journal.now.history) }
    ensures lawful { IsLawful result ↔ Lawful journal.now.history }
    ensures fault { fault_of result ≡ fault journal.now.history }
{
    let mut setup = setup_to(&Past::of(journal, from));
    for index in from..journal.len() {
        let entry = journal.entry(index);
        if let Some(rule) = broken(entry, &Past::set_up(journal, index, setup)) {
            return Verdict::Unlawful { index, rule };
        }
        setup = setup_after(setup, &entry.event, index);
    }
    Verdict::Lawful
}
