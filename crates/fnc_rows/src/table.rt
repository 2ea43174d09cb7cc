// A table on standard input, and what is said of its rows.

use crate::row::Row;
use std::alloc::{AllocError, Global};
use std::io;

/// What says something of rows.
pub trait Reading {
    /// What is said of a row, after the rows before it.
    fn say(&mut self, alloc: Global, row: &Row) -> Result<String, AllocError>;
}

/// Prints each row of standard input with what is said of it. Empty lines and those that begin with `#` are headings.
pub fn print_table<R: Reading>(
    rt: &(impl Print + Input + AllocGlobal),
    reading: &mut R,
) -> io::Result<()> {
    for line in rt.lines(rt.alloc()) {
        let line = line?;
        if line.is_empty() || line.as_str().starts_with('#') {
            println!(rt; "{line}")?;
        } else {
            let row = Row::read(rt.alloc(), line.as_str())?;
            let said = reading.say(rt.alloc(), &row)?;
            println!(rt; "{line} => {said:?}")?;
        }
    }
    Ok(())
}
