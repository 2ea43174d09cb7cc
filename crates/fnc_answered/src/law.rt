// What a lawful journal holds once all that it called for is done.

ghost use Rattle.std.specs.Prelude.{ℕ, ◌≡◌, ◌+◌, ◌<◌, true};
ghost use Rattle.fnc_journal.specs.History.{History};
ghost use Rattle.fnc_journal.specs.Found.{asks, replies, is_answered};
ghost use Rattle.fnc_journal.specs.Lawful.{Lawful};
ghost use Rattle.fnc_answered.specs.Plain.{PlainDevices};
ghost use Rattle.fnc_answered.specs.Done.{IsDone, Unconfirmed};
ghost use Rattle.fnc_answered.specs.Counts.{is_passed, is_levels, is_time, is_no_device, replies_that};

/// In a lawful journal whose devices wait for no delay and have room for a run, at a moment (in milliseconds, not
/// before the last entry) at which no answer is due, no try may start and no run is alive, every request has its
/// answer: those numbered below `asks` are all of them. There are as many replies as requests. Where no operator
/// confirmed, each of them says that a level passed, that all levels are lost, that the time is over, or that no device
/// is capable.
pub fn all_are_answered()
    ensures answered { (h : History) (m : ℕ) → Lawful h → PlainDevices h → IsDone m h →
        (r : ℕ) → r < asks h → is_answered r h ≡ true }
    ensures counted { (h : History) (m : ℕ) → Lawful h → PlainDevices h → IsDone m h → replies h ≡ asks h }
    ensures told { (h : History) (m : ℕ) → Lawful h → PlainDevices h → IsDone m h → Unconfirmed h →
        replies_that is_passed h + replies_that is_levels h + replies_that is_time h + replies_that is_no_device h
        ≡ asks h }
{}
