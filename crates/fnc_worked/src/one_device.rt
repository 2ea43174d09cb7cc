// One device for one node: its tries, merged requests, and requests that it cannot serve.

ghost use Rattle.fnc_worked.specs.OneDevice as OneDevice;
ghost use Rattle.fnc_worked.specs.Sessions.{IsReplay};

/// One device for one node: its tries, merged requests, and requests that it cannot serve.
pub fn one_device_sessions()
    ensures first_try { IsReplay OneDevice.first_try }
    ensures second_try { IsReplay OneDevice.second_try }
    ensures both_fail { IsReplay OneDevice.both_fail }
    ensures merged { IsReplay OneDevice.merged }
    ensures none_capable { IsReplay OneDevice.none_capable }
    ensures without_reboot { IsReplay OneDevice.without_reboot }
    ensures by_priority { IsReplay OneDevice.by_priority }
    ensures next_candidate { IsReplay OneDevice.next_candidate }
{}
