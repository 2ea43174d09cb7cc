// A device's limit on runs that are alive at once.

ghost use Rattle.fnc_worked.specs.Limits as Limits;
ghost use Rattle.fnc_worked.specs.Sessions.{IsReplay};

/// A device's limit on runs that are alive at once.
pub fn limit_sessions()
    ensures limit_by_name { IsReplay Limits.limit_by_name }
    ensures no_limit { IsReplay Limits.no_limit }
    ensures own_limit { IsReplay Limits.own_limit }
    ensures two_places { IsReplay Limits.two_places }
    ensures retry_waits { IsReplay Limits.retry_waits }
    ensures place_held { IsReplay Limits.place_held }
{}
