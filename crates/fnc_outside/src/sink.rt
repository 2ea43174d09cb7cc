// Where bytes go.

ghost use Rattle.std.specs.Prelude.{◌≡◌, ℕ, List, [], Option, OnOk, OnErr};
ghost use Rattle.fnc_outside.specs.Faults.{NeverFalls, Rose};
ghost use Rattle.fnc_outside.specs.Told.{Gains, Keeps};
ghost use Rattle.fnc_outside.specs.Writes.{AppendsPart, HoldsPart};

/// A write or a flush failed.
#[derive(Clone, Copy, Debug, PartialEq, Eq)]
pub struct SinkFailed;

/// A sink of bytes. Bytes are handed over by `write`, and sent on by `flush` at the latest.
pub trait Sink {
    /// The bytes that were handed over and are held, sent on or not, where the sink tells them.
    ghost held: { Self → Option (List ℕ) };

    /// How many of the bytes that were handed over are still to be sent on.
    ghost unsent: { Self → ℕ };

    /// How many faults there were so far, up to 2^64 - 1.
    ghost faults: { Self → ℕ };

    /// Hands over a piece, which is appended. Where the write fails, a part from the front of the piece
    /// was appended, maybe none of it or all.
    fn write(&mut self, piece: &[u8]) -> Result<(), SinkFailed>
        ensures ok { OnOk result (Gains (held self.old) (held self.new) piece.now) }
        ensures err { OnErr result (AppendsPart (held self.old) (held self.new) piece.now) }
        ensures count { NeverFalls (faults self.old) (faults self.new) }
        ensures cause { OnErr result (Rose (faults self.old) (faults self.new)) };

    /// Sends on all that was handed over. Where the flush fails, what is held is a part from the front of
    /// what was, maybe none of it or all.
    fn flush(&mut self) -> Result<(), SinkFailed>
        ensures ok { OnOk result (Keeps (held self.old) (held self.new)) }
        ensures sent { OnOk result (unsent self.new ≡ 0) }
        ensures err { OnErr result (HoldsPart (held self.old) (held self.new) []) }
        ensures count { NeverFalls (faults self.old) (faults self.new) }
        ensures cause { OnErr result (Rose (faults self.old) (faults self.new)) };
}
