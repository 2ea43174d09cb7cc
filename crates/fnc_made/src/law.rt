// What the lines that a workload makes never say.

ghost use Rattle.fnc_command.specs.declared.command.Mode.{Mode};
ghost use Rattle.fnc_command.specs.Lines.{said};
ghost use Rattle.fnc_made.specs.Made.{made_text};
ghost use Rattle.fnc_made.specs.Plain.{PlainRead};
ghost use Rattle.fnc_made.specs.declared.made.Made.{Made};

/// No line that is made confirms, and the devices that such lines define wait for no delay, are allowed a try, and have
/// room for a run.
pub fn made_lines_are_plain()
    ensures { (m : Made) → PlainRead (said Mode.Timed (made_text m)) }
{}
