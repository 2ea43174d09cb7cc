// The buffer into which a source puts a line.

ghost use Rattle.std.specs.Prelude.{◌≡◌, ◌+◌, ◌≤◌, ◌++◌, [], length, IfOk, IsTrue, ◌↔◌};
ghost use Rattle.std.specs.Bool.{OnTrue, OnFalse};

use fnc_journal::NoMemory;
use std::alloc::Global;
use std::marker::Model;

/// A buffer for one line, of a size that is fixed when it is made. All its memory is taken then.
#[derive(Debug, Drop)]
pub struct LineBuf {
    bytes: Vec<u8>,
    size: u32,
}

impl Model for LineBuf {
    ghost use Rattle.std.specs.Prelude.{◌≤◌, ◌<◌, ◌^◌, vec_len, vec_capacity};
    ghost use Rattle.fnc_outside.specs.Buffered.{Buffered};

    ghost Value = { Buffered };

    ghost view = { λ b. record { bytes = b.bytes.items; size = b.size } };

    ghost invariant = { λ b. (vec_len b.bytes ≤ b.size) × (b.size ≤ vec_capacity b.bytes) × (b.size < 2 ^ 32) };
}

impl LineBuf {
    /// An empty buffer for lines of up to `size` bytes.
    pub fn with_size(alloc: Global, size: u32) -> Result<LineBuf, NoMemory>
        ensures bytes { IfOk result (λ b. b.bytes ≡ []) }
        ensures size { IfOk result (λ b. b.size ≡ size) }
    {
        let bytes = Vec::with_capacity(alloc, size as usize)?;
        Ok(LineBuf { bytes, size })
    }

    /// The bytes that it holds, never more than its size.
    pub fn bytes(&self) -> &[u8]
        ensures bytes { result.now ≡ self.now.bytes }
        ensures fits { length self.now.bytes ≤ self.now.size }
    {
        self.bytes.as_slice()
    }

    /// The most bytes that it can hold.
    pub fn size(&self) -> u32
        ensures { result ≡ self.now.size }
    {
        self.size
    }

    /// Takes all bytes out.
    pub fn clear(&mut self)
        ensures { self.new ≡ record self.old { bytes = [] } }
    {
        self.bytes.clear();
    }

    /// Adds a piece at the end. False exactly where it does not fit, and then nothing is added.
    pub fn append(&mut self, piece: &[u8]) -> bool
        ensures fits { IsTrue result ↔ (length self.old.bytes + length piece.now ≤ self.old.size) }
        ensures added { OnTrue result (self.new ≡ record self.old { bytes = self.old.bytes ++ piece.now }) }
        ensures full { OnFalse result (self.new ≡ self.old) }
    {
        if piece.len() > self.size as usize - self.bytes.len() {
            return false;
        }
        self.bytes.extend_from_slice(piece).is_ok()
    }
}
