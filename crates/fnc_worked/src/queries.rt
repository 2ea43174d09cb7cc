// Devices that are asked whether they can fence the node, and list answers that are kept.

ghost use Rattle.fnc_worked.specs.Queries as Queries;
ghost use Rattle.fnc_worked.specs.Sessions.{IsReplay};

/// Devices that are asked whether they can fence the node, and list answers that are kept.
pub fn query_sessions()
    ensures listed { IsReplay Queries.listed }
    ensures not_listed { IsReplay Queries.not_listed }
    ensures status_off { IsReplay Queries.status_off }
    ensures status_fails { IsReplay Queries.status_fails }
    ensures kept_yes { IsReplay Queries.kept_yes }
    ensures kept_no { IsReplay Queries.kept_no }
    ensures listed_but_failed { IsReplay Queries.listed_but_failed }
    ensures query_ends { IsReplay Queries.query_ends }
    ensures query_total { IsReplay Queries.query_total }
    ensures kept_late { IsReplay Queries.kept_late }
    ensures later_no { IsReplay Queries.later_no }
{}
