// Numbers, durations, words, names and escapes.

use fnc_journal::NoMemory;
use fnc_rows::Row;
use fnc_text::{is_name, next_word, read_duration, read_number, unescape, unescape_bytes};
use std::alloc::Global;

/// What is said of a row: `duration|TEXT`, `number|TEXT|GREATEST`, `word|LINE|FROM`, `name|TEXT`, `text|WORD` or
/// `bytes|WORD`.
pub(crate) fn say(alloc: Global, row: &Row) -> Result<String, NoMemory> {
    match row.text(0) {
        "duration" => duration(alloc, row.bytes(1)),
        "number" => { Ok(format!(in alloc; "{:?}", read_number(row.bytes(1), row.number(2)))?) }
        "word" => word(alloc, row.bytes(1), row.number(2) as usize),
        "name" => Ok(format!(in alloc; "{}", is_name(row.text(1)))?),
        "text" => text(alloc, row.bytes(1)),
        _ => bytes(alloc, row.bytes(1)),
    }
}

/// The milliseconds that a text says, or why it is no duration.
fn duration(alloc: Global, text: &[u8]) -> Result<String, NoMemory> {
    Ok(match read_duration(text) {
        Ok(ms) => format!(in alloc; "{ms}")?,
        Err(fault) => format!(in alloc; "{fault}")?,
    })
}

/// The first word from a place of a line on.
fn word(alloc: Global, line: &[u8], from: usize) -> Result<String, NoMemory> {
    if from > line.len() {
        return Ok(String::from_str(alloc, "no such place")?);
    }
    Ok(format!(in alloc; "{:?}", next_word(line, from))?)
}

/// The text that a word spells, or why it spells none.
fn text(alloc: Global, word: &[u8]) -> Result<String, NoMemory> {
    Ok(match unescape(alloc, word) {
        Ok(text) => String::from_str(alloc, text.as_str())?,
        Err(fault) => format!(in alloc; "{fault}")?,
    })
}

/// The bytes that a word spells, or why it spells none.
fn bytes(alloc: Global, word: &[u8]) -> Result<String, NoMemory> {
    Ok(match unescape_bytes(alloc, word) {
        Ok(bytes) => format!(in alloc; "{:?}", bytes.as_slice())?,
        Err(fault) => format!(in alloc; "{fault}")?,
    })
}
