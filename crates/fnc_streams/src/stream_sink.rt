// Bytes to a writer.

ghost use Rattle.std.specs.Prelude.{◌≡◌, ℕ, List, [], length, None, IfOk, OnOk, OnErr, IsErr};
ghost use Rattle.std.specs.Io.KnownBytes.{Appends};
ghost use Rattle.std.specs.Io.KnownBytes as Known;
ghost use Rattle.fnc_outside.specs.Faults.{NeverFalls, Rose, one_more};
ghost use Rattle.fnc_outside.specs.Told.{Gains, Keeps};
ghost use Rattle.fnc_outside.specs.Writes.{AppendsPart, HoldsPart};

use fnc_journal::NoMemory;
use fnc_outside::{Sink, SinkFailed};
use std::alloc::Global;
use std::io::{BufWriter, Write};
use std::marker::Model;

/// The most bytes that wait before they are written.
const ROOM: usize = 65_536;

/// A sink over a writer. Bytes that are handed over wait until they fill its room or are flushed.
#[derive(Drop)]
pub struct StreamSink<W: Write + Drop> {
    writer: BufWriter<W, Global>,
    faults: u64,
}

impl<W: Write + Drop> Model for StreamSink<W> {
    ghost use Rattle.std.specs.Prelude.{◌<◌, ◌^◌};
    ghost use Rattle.std.specs.Io.Buffered.{writer_contents, writer_buffer};
    ghost use Rattle.fnc_streams.specs.Streamed.{Writing};

    ghost Value = { Writing };

    ghost view = { λ s. record {
      written = writer_contents W.contents s.writer;
      waiting = writer_buffer s.writer;
      faults = s.faults;
    } };

    ghost invariant = { λ s. s.faults < 2 ^ 64 };
}

impl<W: Write + Drop> StreamSink<W> {
    /// A sink over this writer, with the memory for what waits.
    pub fn new(alloc: Global, writer: W) -> Result<StreamSink<W>, NoMemory>
        ensures waiting { IfOk result (λ s. s.waiting ≡ []) }
        ensures faults { IfOk result (λ s. s.faults ≡ 0) }
    {
        match BufWriter::with_capacity(alloc, ROOM, writer) {
            Ok(writer) => Ok(StreamSink { writer, faults: 0 }),
            Err(_) => Err(NoMemory),
        }
    }

    /// Counts one more fault.
    fn fail(&mut self) -> Result<(), SinkFailed>
        ensures failed { IsErr result }
        ensures counts { self.new ≡ record self.old { faults = one_more self.old.faults } }
    {
        self.faults = self.faults.saturating_add(1);
        Err(SinkFailed)
    }
}

impl<W: Write + Drop> Sink for StreamSink<W> {
    ghost held = { λ _. None };

    ghost unsent = { λ s. length s.waiting };

    ghost faults = { λ s. s.faults };

    fn write(&mut self, piece: &[u8]) -> Result<(), SinkFailed>
        ensures ok { OnOk result (Gains None None piece.now) }
        ensures err { OnErr result (AppendsPart None None piece.now) }
        ensures count { NeverFalls self.old.faults self.new.faults }
        ensures cause { OnErr result (Rose self.old.faults self.new.faults) }
        // where the writer tells what it holds, that and what waits for it grow by the piece
        ensures written { OnOk result (Appends self.old.written self.new.written piece.now) }
    {
        match self.writer.write_all(piece) {
            Ok(()) => Ok(()),
            Err(_) => self.fail(),
        }
    }

    fn flush(&mut self) -> Result<(), SinkFailed>
        ensures ok { OnOk result (Keeps {A = List ℕ} None None) }
        ensures sent { OnOk result (length self.new.waiting ≡ 0) }
        ensures err { OnErr result (HoldsPart None None []) }
        ensures count { NeverFalls self.old.faults self.new.faults }
        ensures cause { OnErr result (Rose self.old.faults self.new.faults) }
        // nothing waits, so what was handed over is what the writer holds, where it tells that
        ensures waiting { OnOk result (self.new.waiting ≡ []) }
        ensures written { Known.Keeps self.old.written self.new.written }
    {
        match self.writer.flush() {
            Ok(()) => Ok(()),
            Err(_) => self.fail(),
        }
    }
}
