// Sessions with one change that makes a reply wrong or leaves one out.

ghost use Rattle.fnc_journal.specs.declared.outcome.Rule.{Rule};
ghost use Rattle.fnc_worked.specs.FaultyReplies as FaultyReplies;
ghost use Rattle.fnc_worked.specs.Sessions.{Breaks};

/// Sessions with one change that makes a reply wrong or leaves one out: the entry and the rule that are judged.
pub fn journals_with_a_faulty_reply()
    ensures failed_run { Breaks 4 Rule.Reply FaultyReplies.failed_run }
    ensures exit_at_the_limit { Breaks 7 Rule.Reply FaultyReplies.exit_at_the_limit }
    ensures reply_left_out { Breaks 7 Rule.Prompt FaultyReplies.reply_left_out }
    ensures advance_left_out { Breaks 7 Rule.Prompt FaultyReplies.advance_left_out }
    ensures swapped_requesters { Breaks 5 Rule.Reply FaultyReplies.swapped_requesters }
    ensures swapped_operations { Breaks 4 Rule.Reply FaultyReplies.swapped_operations }
    ensures second_answer { Breaks 5 Rule.Once FaultyReplies.second_answer }
    ensures other_answer { Breaks 6 Rule.Once FaultyReplies.other_answer }
    ensures later_answer { Breaks 6 Rule.Once FaultyReplies.later_answer }
    ensures input_between { Breaks 6 Rule.Once FaultyReplies.input_between }
    ensures borrowed_confirmation { Breaks 11 Rule.Reply FaultyReplies.borrowed_confirmation }
    ensures early_time { Breaks 7 Rule.Reply FaultyReplies.early_time }
    ensures early_pass { Breaks 6 Rule.Reply FaultyReplies.early_pass }
    ensures no_on_phase { Breaks 8 Rule.Reply FaultyReplies.no_on_phase }
    ensures time_in_on_phase { Breaks 9 Rule.Reply FaultyReplies.time_in_on_phase }
    ensures gives_up_early { Breaks 4 Rule.Reply FaultyReplies.gives_up_early }
    ensures other_level { Breaks 4 Rule.Reply FaultyReplies.other_level }
    ensures one_is_capable { Breaks 6 Rule.Reply FaultyReplies.one_is_capable }
    ensures confirmed_on { Breaks 6 Rule.Reply FaultyReplies.confirmed_on }
    ensures confirmed_too_early { Breaks 3 Rule.Reply FaultyReplies.confirmed_too_early }
{}
