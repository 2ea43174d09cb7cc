// Sessions with one change that makes an input wrong.

ghost use Rattle.fnc_journal.specs.declared.outcome.Rule.{Rule};
ghost use Rattle.fnc_worked.specs.FaultyInputs as FaultyInputs;
ghost use Rattle.fnc_worked.specs.Sessions.{Breaks};

/// Sessions with one change that makes an input wrong: the entry and the rule that are judged.
pub fn journals_with_a_faulty_input()
    ensures wrong_lead { Breaks 3 Rule.Prompt FaultyInputs.wrong_lead }
    ensures other_kind { Breaks 3 Rule.Prompt FaultyInputs.other_kind }
    ensures joined_in_on_phase { Breaks 9 Rule.Prompt FaultyInputs.joined_in_on_phase }
    ensures second_exit { Breaks 5 Rule.Exit FaultyInputs.second_exit }
    ensures no_run { Breaks 3 Rule.Order FaultyInputs.no_run }
    ensures moment_falls { Breaks 3 Rule.Order FaultyInputs.moment_falls }
    ensures moment_past_the_end { Breaks 5 Rule.Order FaultyInputs.moment_past_the_end }
    ensures registration_left_out { Breaks 0 Rule.Order FaultyInputs.registration_left_out }
    ensures request_left_out { Breaks 1 Rule.Order FaultyInputs.request_left_out }
    ensures asks_for_list { Breaks 1 Rule.Order FaultyInputs.asks_for_list }
    ensures no_time { Breaks 1 Rule.Order FaultyInputs.no_time }
    ensures too_much_time { Breaks 1 Rule.Order FaultyInputs.too_much_time }
    ensures no_levels { Breaks 1 Rule.Order FaultyInputs.no_levels }
    ensures levels_passed_over { Breaks 4 Rule.Order FaultyInputs.levels_passed_over }
    ensures replaced_pattern { Breaks 6 Rule.Order FaultyInputs.replaced_pattern }
    ensures gone_twice { Breaks 6 Rule.Order FaultyInputs.gone_twice }
    ensures no_such_level { Breaks 6 Rule.Order FaultyInputs.no_such_level }
{}
