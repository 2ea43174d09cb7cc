// Sessions with one change that makes a start wrong.

ghost use Rattle.fnc_journal.specs.declared.outcome.Rule.{Rule};
ghost use Rattle.fnc_worked.specs.FaultyStarts as FaultyStarts;
ghost use Rattle.fnc_worked.specs.Sessions.{Breaks};

/// Sessions with one change that makes a start wrong: the entry and the rule that are judged.
pub fn journals_with_a_faulty_start()
    ensures too_early { Breaks 3 Rule.Start FaultyStarts.too_early }
    ensures over_the_limit { Breaks 5 Rule.Start FaultyStarts.over_the_limit }
    ensures over_its_own_limit { Breaks 7 Rule.Start FaultyStarts.over_its_own_limit }
    ensures place_freed { Breaks 9 Rule.Start FaultyStarts.place_freed }
    ensures two_runs { Breaks 3 Rule.Start FaultyStarts.two_runs }
    ensures other_attempt { Breaks 4 Rule.Start FaultyStarts.other_attempt }
    ensures lacking_action { Breaks 3 Rule.Start FaultyStarts.lacking_action }
    ensures lower_priority { Breaks 3 Rule.Start FaultyStarts.lower_priority }
    ensures topology_now { Breaks 8 Rule.Start FaultyStarts.topology_now }
    ensures lost_level { Breaks 4 Rule.Start FaultyStarts.lost_level }
    ensures not_split { Breaks 4 Rule.Start FaultyStarts.not_split }
    ensures two_at_once { Breaks 5 Rule.Start FaultyStarts.two_at_once }
    ensures retry_first { Breaks 5 Rule.Start FaultyStarts.retry_first }
    ensures later_first { Breaks 12 Rule.Start FaultyStarts.later_first }
    ensures not_capable { Breaks 6 Rule.Start FaultyStarts.not_capable }
    ensures asked_again { Breaks 9 Rule.Start FaultyStarts.asked_again }
    ensures kept_too_long { Breaks 13 Rule.Start FaultyStarts.kept_too_long }
{}
