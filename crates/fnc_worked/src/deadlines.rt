// The end of an action's time, and of an operation's total.

ghost use Rattle.fnc_worked.specs.Deadlines as Deadlines;
ghost use Rattle.fnc_worked.specs.Sessions.{IsReplay};

/// The end of an action's time, and of an operation's total.
pub fn deadline_sessions()
    ensures late_success { IsReplay Deadlines.late_success }
    ensures at_the_limit { IsReplay Deadlines.at_the_limit }
    ensures below_the_limit { IsReplay Deadlines.below_the_limit }
    ensures ready_at_the_end { IsReplay Deadlines.ready_at_the_end }
    ensures both_totals { IsReplay Deadlines.both_totals }
    ensures merged_total { IsReplay Deadlines.merged_total }
    ensures no_room { IsReplay Deadlines.no_room }
{}
