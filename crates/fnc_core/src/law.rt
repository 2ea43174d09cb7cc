// What many calls of a core, one after another, leave of its journal.

ghost use Rattle.std.specs.Prelude.{List, ◌≡◌, ◌++◌};
ghost use Rattle.fnc_core.specs.Cored.{Cored, Sound};
ghost use Rattle.fnc_core.specs.Calls.{AreCalls, AreSound, Grows, after_all, but_replies, entered_by_all};

/// Over every list of calls the journal grows at its end alone, its limit stays, and the last moment, in
/// milliseconds, never falls. The entries that are no replies are those that the calls let in or started, in their
/// order. From a sound core on it is sound after each call: its journal is lawful and calm, nothing is due at the
/// last moment, and the entries with those that are owed are within the limit.
pub fn calls_add_at_the_end()
    ensures grows { (v : Cored) (vs : List Cored) → AreCalls v vs → Grows v (after_all v vs) }
    ensures entered { (v : Cored) (vs : List Cored) (calls : AreCalls v vs) →
        but_replies (after_all v vs).history ≡ entered_by_all v vs calls ++ but_replies v.history }
    ensures sound { (v : Cored) (vs : List Cored) → Sound v → AreCalls v vs → AreSound v vs }
{}
