// What is printed in pieces, and of a journal.

use fnc_desk::{print_end, print_from};
use fnc_journal::limits::LEAST_JOURNAL;
use fnc_journal::{Journal, NoMemory};
use fnc_journal_reader::{EntryFault, read_entry};
use fnc_judge::{Verdict, judge};
use fnc_outside::{MemorySink, Torn};
use fnc_printing::{Piece, print_pieces};
use fnc_rows::Row;
use std::alloc::Global;
use std::str;

/// The piece that a word of a row names.
fn piece(word: &str) -> Piece<'_> {
    let (kind, text) = word.split_once(' ').unwrap_or(("", ""));
    match kind {
        "number" => Piece::Number(text.parse::<u64>().unwrap_or(0)),
        "signed" => Piece::Signed(text.parse::<i32>().unwrap_or(0)),
        "name" => Piece::Name(text),
        _ => Piece::Word(text),
    }
}

/// The pieces of a row from a place on.
fn pieces(alloc: Global, row: &Row, from: usize) -> Result<Vec<Piece<'_>>, NoMemory> {
    let mut pieces = Vec::new(alloc);
    for place in from..row.len() {
        pieces.push(piece(row.text(place)))?;
    }
    Ok(pieces)
}

/// What is printed of pieces, into a sink that may fail.
fn printed(alloc: Global, pieces: &[Piece<'_>], torn: &[Torn]) -> Result<String, NoMemory> {
    let mut sink = MemorySink::torn(alloc, 64, torn)?;
    let done = print_pieces(pieces, &mut sink);
    let text = str::from_utf8(sink.bytes()).unwrap_or("");
    Ok(format!(in alloc; "{done:?} {text}")?)
}

/// Enters the entry that a line spells, where there is room for it.
fn enter(alloc: Global, journal: &mut Journal, line: &[u8]) -> Result<(), EntryFault> {
    let entry = read_entry(alloc, line)?;
    if journal.len() < journal.limit() {
        journal.push(entry);
    }
    Ok(())
}

/// Enters the entries that the words of a row spell.
fn enter_all(alloc: Global, journal: &mut Journal, row: &Row) -> Result<(), EntryFault> {
    for place in 1..row.len() {
        enter(alloc, journal, row.bytes(place))?;
    }
    Ok(())
}

/// What is printed of a journal, and its end line.
fn lines(alloc: Global, journal: &Journal) -> Result<String, NoMemory> {
    let mut sink = MemorySink::new(alloc, 128, &[])?;
    match judge(journal) {
        Verdict::Lawful => {
            let done = print_from(journal, 0, &mut sink);
            let end = print_end(journal, &mut sink);
            let text = str::from_utf8(sink.bytes()).unwrap_or("");
            Ok(format!(in alloc; "{done:?} {end:?} {text}")?)
        }
        verdict => Ok(format!(in alloc; "{verdict:?}")?),
    }
}

/// What is printed of the journal that the words of a row spell, or why they spell none.
fn journal(alloc: Global, row: &Row) -> Result<String, NoMemory> {
    let mut journal = Journal::with_limit(alloc, LEAST_JOURNAL)?;
    match enter_all(alloc, &mut journal, row) {
        Ok(()) => lines(alloc, &journal),
        Err(fault) => Ok(format!(in alloc; "{fault}")?),
    }
}

/// What is printed of the pieces of a row from a place on, into a sink that may fail.
fn on_pieces(alloc: Global, row: &Row, from: usize, torn: &[Torn]) -> Result<String, NoMemory> {
    let pieces = pieces(alloc, row, from)?;
    printed(alloc, pieces.as_slice(), torn)
}

/// What is said of a row: `pieces|PIECE|..`, `torn pieces|WRITE|KEPT|PIECE|..` where a write fails and keeps so many
/// bytes, and `journal|ENTRY|..`.
pub(crate) fn say(alloc: Global, row: &Row) -> Result<String, NoMemory> {
    let (write, kept) = (row.number32(1), row.number32(2));
    match row.text(0) {
        "pieces" => on_pieces(alloc, row, 1, &[]),
        "torn pieces" => on_pieces(alloc, row, 3, &[Torn { write, kept }]),
        _ => journal(alloc, row),
    }
}
