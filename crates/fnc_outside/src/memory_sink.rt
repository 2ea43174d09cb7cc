// A sink that keeps its bytes in memory, for tests.

ghost use Rattle.std.specs.Prelude.{◌≡◌, ◌++◌, [], Some, IfOk, OnOk, OnErr, IsErr, is_err, map, take, if◌then◌else◌};
ghost use Rattle.fnc_outside.specs.Faults.{NeverFalls, Rose, one_more};
ghost use Rattle.fnc_outside.specs.Stored.{
  unused,
  unsent,
  kept_of,
  has_room,
  write_fails,
  after_write,
  flush_fails,
  after_flush,
};
ghost use Rattle.fnc_outside.specs.Told.{Gains, Keeps};
ghost use Rattle.fnc_outside.specs.Writes.{AppendsPart, HoldsPart};

use crate::numbers::lists;
use crate::sink::{Sink, SinkFailed};
use fnc_journal::NoMemory;
use std::alloc::Global;
use std::marker::Model;

/// A write that tears: the write of this number, from 0, fails after so many bytes of its piece were
/// appended, or all of them where the piece is shorter.
#[derive(Clone, Copy, Debug, PartialEq, Eq)]
pub struct Torn {
    pub write: u32,
    pub kept: u32,
}

/// Bytes up to a size that is fixed when it is made. All its memory is taken then. Bytes that were
/// written are held at once, and a flush counts them as sent on; one that fails loses what was not.
#[derive(Debug, Drop)]
pub struct MemorySink {
    bytes: Vec<u8>,
    size: u32,
    sent: usize,
    writes: u64,
    torn: Vec<Torn>,
    flushes: u64,
    failing: Vec<u32>,
    faults: u64,
}

impl Model for MemorySink {
    ghost use Rattle.std.specs.Prelude.{◌≤◌, ◌<◌, ◌^◌, vec_len, vec_capacity};
    ghost use Rattle.fnc_outside.specs.Stored.{Stored};

    ghost Value = { Stored };

    ghost view = { λ s. record {
      held = s.bytes.items;
      size = s.size;
      sent = s.sent;
      writes = s.writes;
      torn = s.torn.items;
      flushes = s.flushes;
      failing = s.failing.items;
      faults = s.faults;
    } };

    ghost invariant = { λ s.
        (vec_len s.bytes ≤ s.size) × (s.size ≤ vec_capacity s.bytes) × (s.size < 2 ^ 32) × (s.sent ≤ vec_len s.bytes) };
}

/// How many bytes the write of this number keeps, where it tears.
fn kept(torn: &[Torn], write: u64) -> Option<u32>
    ensures { result ≡ kept_of torn.now write }
{
    for item in torn {
        if u64::from(item.write) == write {
            return Some(item.kept);
        }
    }
    None
}

/// The writes of these numbers, which tear and keep nothing.
fn keeping_nothing(alloc: Global, writes: &[u32]) -> Result<Vec<Torn>, NoMemory>
    ensures { IfOk result (λ torn. torn.items ≡ map (λ write. record { write = write; kept = 0 }) writes.now) }
{
    let torn = writes.iter().map(|write| Torn {
        write: *write,
        kept: 0,
    });
    Ok(torn.collect(alloc)?)
}

impl MemorySink {
    /// An empty sink with room for `size` bytes, of which these writes tear and these flushes fail.
    fn with_faults(
        alloc: Global,
        size: u32,
        torn: Vec<Torn>,
        failing: Vec<u32>,
    ) -> Result<MemorySink, NoMemory>
        ensures { IfOk result (λ s. s ≡ unused size torn.items failing.items) }
    {
        Ok(MemorySink {
            bytes: Vec::with_capacity(alloc, size as usize)?,
            size,
            sent: 0,
            writes: 0,
            torn,
            flushes: 0,
            failing,
            faults: 0,
        })
    }

    /// An empty sink with room for `size` bytes. The writes whose numbers are listed, from 0, fail and
    /// append nothing. So does a write that does not fit.
    pub fn new(alloc: Global, size: u32, failing: &[u32]) -> Result<MemorySink, NoMemory>
        ensures { IfOk result (λ s.
            s ≡ unused size (map (λ write. record { write = write; kept = 0 }) failing.now) []) }
    {
        MemorySink::with_faults(
            alloc,
            size,
            keeping_nothing(alloc, failing)?,
            Vec::new(alloc),
        )
    }

    /// An empty sink with room for `size` bytes, of which the listed writes tear. Where a number is
    /// listed more than once its first item counts.
    pub fn torn(alloc: Global, size: u32, failing: &[Torn]) -> Result<MemorySink, NoMemory>
        ensures { IfOk result (λ s. s ≡ unused size failing.now []) }
    {
        let torn = Vec::from_slice(alloc, failing)?;
        MemorySink::with_faults(alloc, size, torn, Vec::new(alloc))
    }

    /// An empty sink with room for `size` bytes. The flushes whose numbers are listed, from 0, fail, and
    /// the bytes that were written since the last flush that worked are lost.
    pub fn with_failing_flushes(
        alloc: Global,
        size: u32,
        failing: &[u32],
    ) -> Result<MemorySink, NoMemory>
        ensures { IfOk result (λ s. s ≡ unused size [] failing.now) }
    {
        let failing = Vec::from_slice(alloc, failing)?;
        MemorySink::with_faults(alloc, size, Vec::new(alloc), failing)
    }

    /// The bytes that it holds.
    pub fn bytes(&self) -> &[u8]
        ensures { result.now ≡ self.now.held }
    {
        self.bytes.as_slice()
    }

    /// The bytes that were sent on, which are the first of those that it holds.
    pub fn sent(&self) -> &[u8]
        ensures { result.now ≡ take self.now.sent self.now.held }
    {
        &self.bytes.as_slice()[..self.sent]
    }

    /// Appends these bytes where they have room.
    fn append(&mut self, bytes: &[u8]) -> bool
        ensures room { result ≡ has_room self.old bytes.now }
        ensures held { self.new
            ≡ record self.old { held = (if result then self.old.held ++ bytes.now else self.old.held) } }
    {
        if bytes.len() > self.size as usize - self.bytes.len() {
            return false;
        }
        self.bytes.extend_from_slice(bytes).is_ok()
    }

    /// Counts one more fault.
    fn fail(&mut self) -> Result<(), SinkFailed>
        ensures failed { IsErr result }
        ensures counts { self.new ≡ record self.old { faults = one_more self.old.faults } }
    {
        self.faults = self.faults.saturating_add(1);
        Err(SinkFailed)
    }
}

impl Sink for MemorySink {
    ghost held = { λ s. Some s.held };

    ghost unsent = { unsent };

    ghost faults = { λ s. s.faults };

    fn write(&mut self, piece: &[u8]) -> Result<(), SinkFailed>
        ensures ok { OnOk result (Gains (Some self.old.held) (Some self.new.held) piece.now) }
        ensures err { OnErr result (AppendsPart (Some self.old.held) (Some self.new.held) piece.now) }
        ensures count { NeverFalls self.old.faults self.new.faults }
        ensures cause { OnErr result (Rose self.old.faults self.new.faults) }
        ensures fails { is_err result ≡ write_fails self.old piece.now }
        ensures after { self.new ≡ after_write self.old piece.now }
    {
        let torn = kept(self.torn.as_slice(), self.writes);
        self.writes = self.writes.saturating_add(1);
        match torn {
            Some(kept) => {
                self.append(&piece[..piece.len().min(kept as usize)]);
                self.fail()
            }
            None => {
                if self.append(piece) {
                    Ok(())
                } else {
                    self.fail()
                }
            }
        }
    }

    fn flush(&mut self) -> Result<(), SinkFailed>
        ensures ok { OnOk result (Keeps (Some self.old.held) (Some self.new.held)) }
        ensures sent { OnOk result (unsent self.new ≡ 0) }
        ensures err { OnErr result (HoldsPart (Some self.old.held) (Some self.new.held) []) }
        ensures count { NeverFalls self.old.faults self.new.faults }
        ensures cause { OnErr result (Rose self.old.faults self.new.faults) }
        ensures fails { is_err result ≡ flush_fails self.old }
        ensures after { self.new ≡ after_flush self.old }
    {
        let fails = lists(self.failing.as_slice(), self.flushes);
        self.flushes = self.flushes.saturating_add(1);
        if fails {
            self.bytes.truncate(self.sent);
            return self.fail();
        }
        self.sent = self.bytes.len();
        Ok(())
    }
}
