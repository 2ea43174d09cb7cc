// Where the operations of a lawful journal stand while time passes.

ghost use Rattle.std.specs.Prelude.{ℕ, ◌≡◌, ◌≤◌, Some, false};
ghost use Rattle.fnc_journal.specs.History.{History};
ghost use Rattle.fnc_journal.specs.Missing.{has_come};
ghost use Rattle.fnc_journal.specs.Slots.{Operation};
ghost use Rattle.fnc_journal.specs.Acts.{acts};
ghost use Rattle.fnc_journal.specs.Operations.{operation};
ghost use Rattle.fnc_journal.specs.Lawful.{Lawful};
ghost use Rattle.fnc_stands.specs.Still.{ArePast, OnlyOneRuns, StandsStill, standing_end};

/// In a lawful journal each operation has at most one slot under way at a moment (in milliseconds, not before its last
/// act): that at which it stands. So it stands where it stood at an earlier moment, and waits for the same, until the
/// end of that slot's action has come.
pub fn each_stands_still()
    ensures one { (h : History) (o : Operation) (m : ℕ) → Lawful h → operation o.req h ≡ Some o →
        ArePast m (acts o.req h) → OnlyOneRuns o m (acts o.req h) }
    ensures still { (h : History) (o : Operation) (a m : ℕ) → Lawful h → operation o.req h ≡ Some o → a ≤ m →
        ArePast a (acts o.req h) → has_come (standing_end o a (acts o.req h)) m ≡ false →
        StandsStill o a m (acts o.req h) }
{}
