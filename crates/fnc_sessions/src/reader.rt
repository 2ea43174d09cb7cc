// A reader that gives the words of a row, one a read, and then its end.

use fnc_rows::Row;
use std::io;
use std::io::{Error, ErrorKind, Read};

/// The words of a row from a place on. `!broken` and `!interrupted` are reads that fail.
#[derive(Drop)]
pub(crate) struct Pieces<'a> {
    pub(crate) row: &'a Row,
    pub(crate) at: usize,
}

impl Read for Pieces<'_> {
    fn read(&mut self, buf: &mut [u8]) -> io::Result<usize> {
        if self.at >= self.row.len() {
            return Ok(0);
        }
        let piece = self.row.bytes(self.at);
        self.at += 1;
        match self.row.text(self.at - 1) {
            "!broken" => Err(Error::from(ErrorKind::BrokenPipe)),
            "!interrupted" => Err(Error::from(ErrorKind::Interrupted)),
            _ => {
                let count = piece.len().min(buf.len());
                buf[..count].copy_from_slice(&piece[..count]);
                Ok(count)
            }
        }
    }
}
