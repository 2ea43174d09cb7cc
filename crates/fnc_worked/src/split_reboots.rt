// A reboot on a level of two devices: off on both, then on on both.

ghost use Rattle.fnc_worked.specs.SplitReboots as SplitReboots;
ghost use Rattle.fnc_worked.specs.Sessions.{IsReplay};

/// A reboot on a level of two devices: off on both, then on on both.
pub fn split_reboot_sessions()
    ensures split_reboot { IsReplay SplitReboots.split_reboot }
    ensures on_fails { IsReplay SplitReboots.on_fails }
    ensures total_in_on_phase { IsReplay SplitReboots.total_in_on_phase }
    ensures total_in_off_phase { IsReplay SplitReboots.total_in_off_phase }
    ensures asked_in_on_phase { IsReplay SplitReboots.asked_in_on_phase }
    ensures ordinary_use { IsReplay SplitReboots.ordinary_use }
{}
