// What is printed, kept in memory to be compared.

ghost use Rattle.std.specs.Prelude.{◌≡◌, ◌^◌, ◌-◌, if◌then◌else◌, Some, Err, [], IfOk, OnErr, OnOk, bytes_eq};
ghost use Rattle.fnc_outside.specs.Faults.{NeverFalls, Rose};
ghost use Rattle.fnc_outside.specs.Told.{Gains};
ghost use Rattle.fnc_outside.specs.Writes.{AppendsPart};
ghost use Rattle.fnc_journal_reader.specs.declared.fault.EntryFault.{EntryFault};
ghost use Rattle.fnc_journal_text.specs.Spelled.{line_of};

use crate::fault::EntryFault;
use fnc_journal::Entry;
use fnc_journal_text::print_spelling;
use fnc_outside::{Sink, SinkFailed};
use std::alloc::Global;

/// A sink that keeps what it is given. A write fails where memory is refused.
#[derive(Drop)]
struct Copied {
    bytes: Vec<u8>,
    failed: bool,
}

impl Sink for Copied {
    ghost held = { λ s. Some s.bytes.items };

    // nothing waits
    ghost unsent = { λ _. 0 };

    ghost faults = { λ s. if s.failed then 2 ^ 64 - 1 else 0 };

    fn write(&mut self, piece: &[u8]) -> Result<(), SinkFailed>
        ensures ok { OnOk result (Gains (Some self.old.bytes.items) (Some self.new.bytes.items) piece.now) }
        ensures err { OnErr result (AppendsPart (Some self.old.bytes.items) (Some self.new.bytes.items) piece.now) }
        ensures count { NeverFalls (if self.old.failed then 2 ^ 64 - 1 else 0)
            (if self.new.failed then 2 ^ 64 - 1 else 0) }
        ensures cause { OnErr result (Rose (if self.old.failed then 2 ^ 64 - 1 else 0)
            (if self.new.failed then 2 ^ 64 - 1 else 0)) }
    {
        if self.bytes.extend_from_slice(piece).is_ok() {
            Ok(())
        } else {
            self.failed = true;
            Err(SinkFailed)
        }
    }

    fn flush(&mut self) -> Result<(), SinkFailed> {
        Ok(())
    }
}

/// Whether a line is the spelling of an entry.
pub(crate) fn is_spelled(alloc: Global, entry: &Entry, line: &[u8]) -> Result<bool, EntryFault>
    ensures ok { IfOk result (λ same. same ≡ bytes_eq (line_of entry.now) line.now) }
    ensures err { OnErr result (result ≡ Err EntryFault.NoMemory) }
{
    let mut copied = Copied {
        bytes: Vec::new(alloc),
        failed: false,
    };
    match print_spelling(entry, &mut copied) {
        Ok(()) => Ok(copied.bytes.as_slice() == line),
        Err(SinkFailed) => Err(EntryFault::NoMemory),
    }
}
