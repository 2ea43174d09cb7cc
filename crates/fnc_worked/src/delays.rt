// The delay before the first try.

ghost use Rattle.fnc_worked.specs.Delays as Delays;
ghost use Rattle.fnc_worked.specs.Sessions.{IsReplay};

/// The delay before the first try.
pub fn delay_sessions()
    ensures delay_over { IsReplay Delays.delay_over }
    ensures delay_not_over { IsReplay Delays.delay_not_over }
    ensures retry_at_once { IsReplay Delays.retry_at_once }
    ensures on_at_once { IsReplay Delays.on_at_once }
{}
