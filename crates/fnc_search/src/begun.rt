// From which entry on a lawful journal may speak of an operation, and whether it does.

ghost use Rattle.std.specs.Prelude.{◌≡◌, ◌≤◌, [], None, length, true};
ghost use Rattle.fnc_journal.specs.Acts.{acts};
ghost use Rattle.fnc_journal.specs.Found.{asked};
ghost use Rattle.fnc_journal.specs.Lawful.{Lawful};
ghost use Rattle.fnc_journal.specs.Operations.{requests};
ghost use Rattle.fnc_journal.specs.Prefix.{prefix};

use crate::past::Past;

/// The entry of an operation's own request, or the first one where there is none: the entries before it know
/// neither the request nor a member, and no run of the operation.
pub fn begun_from(past: &Past<'_>, req: u32) -> u32
    requires { Lawful past.now }
    ensures within { result ≤ length past.now }
    ensures asked { asked req (prefix result past.now) ≡ None }
    ensures requests { requests req (prefix result past.now) ≡ [] }
    ensures idle { acts req (prefix result past.now) ≡ [] }
{
    match past.ask_at(req) {
        Some(at) => at,
        None => 0,
    }
}

/// Whether no run of an operation was started.
pub fn is_idle(past: &Past<'_>, req: u32) -> bool
    requires { Lawful past.now }
    ensures { result ≡ true → acts req past.now ≡ [] }
{
    match past.latest(req) {
        Some(_) => false,
        None => true,
    }
}
