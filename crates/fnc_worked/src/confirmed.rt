// An operator's confirmation that a node is down.

ghost use Rattle.fnc_worked.specs.Confirmed as Confirmed;
ghost use Rattle.fnc_worked.specs.Sessions.{IsReplay};

/// An operator's confirmation that a node is down.
pub fn confirmed_sessions()
    ensures confirmed { IsReplay Confirmed.confirmed }
    ensures confirmed_before { IsReplay Confirmed.confirmed_before }
    ensures confirmed_in_on_phase { IsReplay Confirmed.confirmed_in_on_phase }
{}
