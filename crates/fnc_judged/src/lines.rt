// Lines of a journal's text: each is printed as it was read, other lines are no entries, and a write that
// fails leaves the front of a line.

use fnc_journal::{Entry, NoMemory};
use fnc_journal_reader::read_entry;
use fnc_journal_text::{Form, print_head, print_one};
use fnc_outside::{MemorySink, Torn};
use fnc_rows::Row;
use std::alloc::Global;
use std::str;

/// What is printed of an entry, into a sink that may fail.
fn printed(alloc: Global, entry: &Entry, torn: &[Torn]) -> Result<String, NoMemory> {
    let mut sink = MemorySink::torn(alloc, 1_024, torn)?;
    let head = print_head(Form::Answers, &mut sink);
    let line = print_one(entry, &mut sink);
    let text = str::from_utf8(sink.bytes()).unwrap_or("");
    Ok(format!(in alloc; "{head:?} {line:?} {text}")?)
}

/// What is printed of the entry that a line spells, or why it spells none.
fn read(alloc: Global, line: &[u8], torn: &[Torn]) -> Result<String, NoMemory> {
    match read_entry(alloc, line) {
        Ok(entry) => printed(alloc, &entry, torn),
        Err(fault) => Ok(format!(in alloc; "{fault}")?),
    }
}

/// What is said of a row: `line|LINE` of what is printed of the entry that it spells, and `torn|WRITE|KEPT|LINE`
/// where the write of a number fails and keeps so many bytes.
pub(crate) fn say(alloc: Global, row: &Row) -> Result<String, NoMemory> {
    if row.text(0) == "line" {
        return read(alloc, row.bytes(1), &[]);
    }
    let (write, kept) = (row.number32(1), row.number32(2));
    read(alloc, row.bytes(3), &[Torn { write, kept }])
}
