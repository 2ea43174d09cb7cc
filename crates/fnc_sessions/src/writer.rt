// A writer that takes two bytes a write, and fails once.

use std::io;
use std::io::{Error, ErrorKind, Write};

/// What it took so far, the number of the write that fails, and how many writes there were.
#[derive(Drop)]
pub(crate) struct Slow<'a> {
    pub(crate) held: &'a mut Vec<u8>,
    pub(crate) failing: u64,
    pub(crate) writes: u64,
}

impl Write for Slow<'_> {
    fn write(&mut self, buf: &[u8]) -> io::Result<usize> {
        let number = self.writes;
        self.writes = number.saturating_add(1);
        if number == self.failing {
            return Err(Error::from(ErrorKind::BrokenPipe));
        }
        let count = buf.len().min(2);
        self.held.extend_from_slice(&buf[..count])?;
        Ok(count)
    }

    fn flush(&mut self) -> io::Result<()> {
        Ok(())
    }
}
