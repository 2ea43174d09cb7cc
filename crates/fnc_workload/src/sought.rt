// The least run that is alive.

ghost use Rattle.std.specs.Prelude.{◌≡◌, ◌≤◌, length};
ghost use Rattle.fnc_journal.specs.Lawful.{Lawful};
ghost use Rattle.fnc_workload.specs.Lines.{least_alive};
ghost use Rattle.fnc_workload.specs.Ended.{AreEnded, IsPast};

use fnc_journal::{Journal, Run};

/// The first run from a number on that has had no exit, or a number past all runs.
pub(crate) fn past_ended(journal: &Journal, from: u32) -> u32
    requires { AreEnded from journal.now.history }
    ensures ended { AreEnded result journal.now.history }
    ensures past { IsPast result journal.now.history }
{
    let mut run = from;
    while run < journal.len() && journal.has_exit(Run(run)) {
        run += 1;
    }
    run
}

/// The least run that is alive, where all runs below a number have ended, and that run has not, or is past all runs.
#[tactic(auto, using(crate::proofs::Least::least_is))]
pub(crate) fn least_alive(journal: &Journal, past: u32) -> Option<u32>
    requires lawful { Lawful journal.now.history }
    requires ended { AreEnded past journal.now.history }
    requires past { IsPast past journal.now.history }
    ensures { result ≡ least_alive journal.now.history }
{
    if journal.is_alive(Run(past)) {
        Some(past)
    } else {
        None
    }
}
