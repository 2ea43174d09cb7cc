// Lines that are refused, and a name that is printed escaped.

ghost use Rattle.fnc_worked.specs.Refusals as Refusals;
ghost use Rattle.fnc_worked.specs.Sessions.{IsReplay};

/// Lines that are refused, and a name that is printed escaped.
pub fn refused_sessions()
    ensures refusals { IsReplay Refusals.refusals }
    ensures escaped_name { IsReplay Refusals.escaped_name }
{}
