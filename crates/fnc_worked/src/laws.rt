// What the definitions say of any journal.

ghost use Rattle.std.specs.Prelude.{◌≡◌, None};
ghost use Rattle.fnc_journal.specs.History.{History};
ghost use Rattle.fnc_journal.specs.Lawful.{Lawful, fault};

/// A journal is lawful exactly where it has no first fault.
pub fn lawful_without_fault()
    ensures lawful { (h : History) → fault h ≡ None → Lawful h }
    ensures no_fault { (h : History) → Lawful h → fault h ≡ None }
{}
