// Journals that keep every rule, and are not those of a session of lines.

ghost use Rattle.fnc_worked.specs.Unserved as Unserved;
ghost use Rattle.fnc_worked.specs.Sessions.{IsIdle, IsRestless};

/// Journals that keep every rule, and of which some input was not served in full or at its moment. In the last one
/// a start came while an answer was due.
pub fn unserved_inputs()
    ensures no_start { IsIdle Unserved.no_start }
    ensures start_passed_over { IsIdle Unserved.start_passed_over }
    ensures no_reply { IsIdle Unserved.no_reply }
    ensures late_start { IsIdle Unserved.late_start }
    ensures late_reply { IsIdle Unserved.late_reply }
    ensures advance_before_its_input { IsIdle Unserved.advance_before_its_input }
    ensures two_advances { IsIdle Unserved.two_advances }
    ensures start_before_reply { IsRestless Unserved.start_before_reply }
{}
