// Levels of a node, which are tried in order, each on its own, as they stood when the operation began.

ghost use Rattle.std.specs.Prelude.{◌≡◌, take};
ghost use Rattle.fnc_journal.specs.Levels.{birth};
ghost use Rattle.fnc_worked.specs.Entries.{journal, pattern};
ghost use Rattle.fnc_worked.specs.Topology as Topology;
ghost use Rattle.fnc_worked.specs.Sessions.{IsReplay};

/// Levels of a node, which are tried in order, each on its own, as they stood when the operation began.
pub fn topology_sessions()
    ensures no_reuse { IsReplay Topology.no_reuse }
    ensures unfit { IsReplay Topology.unfit }
    ensures unfit_alone { IsReplay Topology.unfit_alone }
    ensures snapshot { IsReplay Topology.snapshot }
    ensures patterns { IsReplay Topology.patterns }
    ensures pattern_order { IsReplay Topology.pattern_order }
    ensures lacks_on { IsReplay Topology.lacks_on }
{}

/// Since which entry a pattern has stood: replacing a level keeps its place, and clearing its last one loses it.
pub fn pattern_births()
    ensures replaced { birth (pattern "n") (journal (take 6 Topology.pattern_order.entries)) ≡ 3 }
    ensures younger { birth (pattern "1") (journal (take 6 Topology.pattern_order.entries)) ≡ 4 }
    ensures cleared { birth (pattern "n") (journal (take 10 Topology.pattern_order.entries)) ≡ 9 }
    ensures older { birth (pattern "1") (journal (take 10 Topology.pattern_order.entries)) ≡ 4 }
{}
