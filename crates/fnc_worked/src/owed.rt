// What is owed along a session.

ghost use Rattle.std.specs.Prelude.{◌≡◌, [], ◌∷◌};
ghost use Rattle.fnc_worked.specs.Confirmed as Confirmed;
ghost use Rattle.fnc_worked.specs.OneDevice as OneDevice;
ghost use Rattle.fnc_worked.specs.OwedAlong.{owed_along};
ghost use Rattle.fnc_worked.specs.Queries as Queries;
ghost use Rattle.fnc_worked.specs.SplitReboots as SplitReboots;
ghost use Rattle.fnc_worked.specs.Topology as Topology;

/// The entries that are owed at first and after each entry of a session. A request with two tries owes five; each
/// start and exit takes one off, and the last reply gives back what the tries that were not needed would have taken.
pub fn entries_owed()
    ensures first_try { owed_along OneDevice.first_try ≡ 0 ∷ 0 ∷ 5 ∷ 4 ∷ 3 ∷ 0 ∷ [] }
    ensures both_fail { owed_along OneDevice.both_fail ≡ 0 ∷ 0 ∷ 5 ∷ 4 ∷ 3 ∷ 2 ∷ 1 ∷ 0 ∷ [] }
    ensures merged { owed_along OneDevice.merged ≡ 0 ∷ 0 ∷ 5 ∷ 4 ∷ 5 ∷ 4 ∷ 3 ∷ 0 ∷ [] }
    ensures unfit { owed_along Topology.unfit ≡ 0 ∷ 0 ∷ 0 ∷ 0 ∷ 5 ∷ 4 ∷ 3 ∷ 0 ∷ [] }
    ensures split_reboot { owed_along SplitReboots.split_reboot
        ≡ 0 ∷ 0 ∷ 0 ∷ 0 ∷ 17 ∷ 16 ∷ 15 ∷ 14 ∷ 13 ∷ 12 ∷ 11 ∷ 10 ∷ 9 ∷ 0 ∷ [] }
    ensures total_in_off_phase { owed_along SplitReboots.total_in_off_phase
        ≡ 0 ∷ 0 ∷ 0 ∷ 0 ∷ 17 ∷ 16 ∷ 15 ∷ 14 ∷ 1 ∷ 1 ∷ [] }
    ensures listed { owed_along Queries.listed ≡ 0 ∷ 0 ∷ 0 ∷ 0 ∷ 13 ∷ 12 ∷ 11 ∷ 10 ∷ 9 ∷ 0 ∷ [] }
    ensures not_listed { owed_along Queries.not_listed ≡ 0 ∷ 0 ∷ 0 ∷ 0 ∷ 13 ∷ 12 ∷ 11 ∷ 10 ∷ 9 ∷ 0 ∷ [] }
    ensures kept_yes { owed_along Queries.kept_yes ≡ 0 ∷ 0 ∷ 0 ∷ 9 ∷ 8 ∷ 7 ∷ 6 ∷ 5 ∷ 0 ∷ 5 ∷ 4 ∷ 3 ∷ 0 ∷ 9 ∷ 8 ∷ [] }
    ensures confirmed { owed_along Confirmed.confirmed ≡ 0 ∷ 0 ∷ 5 ∷ 4 ∷ 9 ∷ 9 ∷ 6 ∷ 5 ∷ 4 ∷ [] }
{}
