// Journals that lines spell: what the judge says of them, and what is printed of their entries.

use crate::lookups::{chain, found};
use fnc_journal::limits::LEAST_JOURNAL;
use fnc_journal::{Journal, NoMemory};
use fnc_journal_reader::{EntryFault, read_entry};
use fnc_journal_text::print_entry;
use fnc_judge::judge;
use fnc_outside::MemorySink;
use fnc_rows::Row;
use std::alloc::Global;
use std::str;

/// The words of a device without options, those of one whose `off` may take 10 seconds, and those of one
/// that tells which nodes it serves.
const PLAIN: &str =
    " fence_model actions=on,off,reboot check=none hosts= map= argument=port limit=1 priority=0 delay=0 max=0 keep=0 \
    on=on/60000/2 off=off/60000/2 reboot=reboot/60000/2 list=list/60000/2 status=status/60000/2";

const SHORT: &str =
    " fence_model actions=on,off,reboot check=none hosts= map= argument=port limit=1 priority=0 delay=0 max=0 keep=0 \
    on=on/60000/2 off=off/10000/2 reboot=reboot/60000/2 list=list/60000/2 status=status/60000/2";

const LISTING: &str =
    " fence_v actions=on,off,reboot,list check=dynamic-list hosts= map= argument=port limit=1 priority=0 delay=0 \
    max=0 keep=0 on=on/60000/2 off=off/60000/2 reboot=reboot/60000/2 list=list/60000/2 status=status/60000/2";

/// The bytes of a line: a mark at its end stands for the words of a device, `*` without options, `!` with a short
/// `off`, and `?` that tells its nodes.
pub(crate) fn spelled(alloc: Global, line: &[u8]) -> Result<Vec<u8>, NoMemory> {
    let (front, words) = match line {
        [front @ .., b'*'] => (front, PLAIN),
        [front @ .., b'!'] => (front, SHORT),
        [front @ .., b'?'] => (front, LISTING),
        front => (front, ""),
    };
    let mut bytes = Vec::from_slice(alloc, front)?;
    bytes.extend_from_slice(words.as_bytes())?;
    Ok(bytes)
}

/// Enters the entry that a line spells, where there is room for it.
fn enter(alloc: Global, journal: &mut Journal, line: &[u8]) -> Result<(), EntryFault> {
    let entry = read_entry(alloc, line)?;
    if journal.len() < journal.limit() {
        journal.push(entry);
    }
    Ok(())
}

/// Enters what lines spell, with one of them in place of another.
fn enter_all(
    alloc: Global,
    journal: &mut Journal,
    lines: &[Vec<u8>],
    place: usize,
    line: &[u8],
) -> Result<(), EntryFault> {
    for (i, kept) in lines.iter().enumerate() {
        enter(
            alloc,
            journal,
            if i == place { line } else { kept.as_slice() },
        )?;
    }
    Ok(())
}

/// Enters the lines of a journal; for a row `change|INDEX|LINE`, with that line in place of one.
fn spell(
    alloc: Global,
    journal: &mut Journal,
    lines: &[Vec<u8>],
    row: &Row,
) -> Result<(), EntryFault> {
    if row.text(0) == "change" {
        let line = spelled(alloc, row.bytes(2))?;
        return enter_all(
            alloc,
            journal,
            lines,
            row.number(1) as usize,
            line.as_slice(),
        );
    }
    enter_all(alloc, journal, lines, lines.len(), &[])
}

/// What is printed of an entry.
fn printed(alloc: Global, journal: &Journal, index: u32) -> Result<String, NoMemory> {
    if index >= journal.len() {
        return Ok(String::from_str(alloc, "no such entry")?);
    }
    let mut sink = MemorySink::new(alloc, 1_024, &[])?;
    let done = print_entry(journal, index, &mut sink);
    let text = str::from_utf8(sink.bytes()).unwrap_or("");
    Ok(format!(in alloc; "{done:?} {text}")?)
}

/// What the judge says of a journal.
fn judged(alloc: Global, journal: &Journal) -> Result<String, NoMemory> {
    Ok(format!(in alloc; "{:?}", judge(journal))?)
}

/// What is said of a journal by a row.
fn told(alloc: Global, journal: &Journal, row: &Row) -> Result<String, NoMemory> {
    match row.text(0) {
        "judge" | "change" => judged(alloc, journal),
        "print" => printed(alloc, journal, row.number32(1)),
        "number" => found(alloc, journal, row.number32(1)),
        _ => chain(alloc, journal),
    }
}

/// Why lines spell no journal.
fn refused(alloc: Global, fault: EntryFault) -> Result<String, NoMemory> {
    Ok(format!(in alloc; "{fault}")?)
}

/// What is said of a row: `judge` of the journal that lines spell, `change|INDEX|LINE` of it with another line there,
/// `print|INDEX` of an entry, `number|NUMBER` of what its index finds by that, and `chain` of what stands before each
/// entry. This alone owns a journal, since each function that does takes the prover long.
pub(crate) fn say(alloc: Global, lines: &[Vec<u8>], row: &Row) -> Result<String, NoMemory> {
    let mut journal = Journal::with_limit(alloc, LEAST_JOURNAL)?;
    match spell(alloc, &mut journal, lines, row) {
        Ok(()) => told(alloc, &journal, row),
        Err(fault) => refused(alloc, fault),
    }
}
