// Sessions in which one poll fails or one write is torn, each in its turn; in which one line is cut short; and one to
// which no line comes.

ghost use Rattle.std.specs.Prelude.{◌<◌, length};

use crate::replayed::run;
use fnc_journal::{Event, Journal, NoMemory, Outcome};
use fnc_judge::{Verdict, judge};
use fnc_outside::{IdleSource, MemorySink, MemorySource, Torn};
use fnc_replay::Replayed;
use fnc_rows::Row;
use std::alloc::Global;

/// The bytes that the sink of a session may hold.
const ROOM: u32 = 1_024;

/// How a session on a text ended, and how many entries lines gave to its journal, where that is lawful.
#[derive(Clone, Copy)]
struct Ended {
    outcome: Outcome,
    inputs: Option<u32>,
}

/// How many entries of a lawful journal lines gave.
fn inputs(journal: &Option<Journal>) -> Option<u32> {
    let journal = journal.as_ref()?;
    if judge(journal) != Verdict::Lawful {
        return None;
    }
    let mut count: u32 = 0;
    for index in 0..journal.len() {
        if !matches!(
            journal.entry(index).event,
            Event::Start(_) | Event::Reply(_)
        ) {
            count = count.saturating_add(1);
        }
    }
    Some(count)
}

/// How a session ended. What it wrote is copied.
fn ending(
    replayed: &Replayed<MemorySource, MemorySink>,
    written: &mut Vec<u8>,
) -> Result<Ended, NoMemory> {
    written.clear();
    written.extend_from_slice(replayed.sink.bytes())?;
    Ok(Ended {
        outcome: replayed.outcome,
        inputs: inputs(&replayed.journal),
    })
}

/// A session on a source, of which some writes are torn, and what it wrote.
fn from_source(
    alloc: Global,
    source: MemorySource,
    torn: &[Torn],
    allowed: u32,
    written: &mut Vec<u8>,
) -> Result<Ended, NoMemory> {
    let sink = MemorySink::torn(alloc, ROOM, torn)?;
    ending(&run(alloc, source, sink, allowed), written)
}

/// A session on a text of which some polls fail and some writes are torn, and what it wrote.
fn on_text(
    alloc: Global,
    text: &[u8],
    failing: &[u32],
    torn: &[Torn],
    allowed: u32,
    written: &mut Vec<u8>,
) -> Result<Ended, NoMemory> {
    let source = MemorySource::new(alloc, text, failing)?;
    from_source(alloc, source, torn, allowed, written)
}

/// How many of so many sessions are as they should be.
#[derive(Clone, Copy)]
struct Counted {
    right: u32,
    all: u32,
}

impl Counted {
    /// Before the first session.
    const NONE: Counted = Counted { right: 0, all: 0 };

    /// With one session more.
    fn with(self, is_right: bool) -> Counted {
        Counted {
            right: self.right.saturating_add(u32::from(is_right)),
            all: self.all.saturating_add(1),
        }
    }

    /// What is said of them.
    fn said(self, alloc: Global) -> Result<String, NoMemory> {
        let (right, all) = (self.right, self.all);
        Ok(format!(in alloc; "{right} of {all}")?)
    }
}

/// Whether a session of which this poll fails ends as it should: it is a read fault, and the lines before are answered,
/// as in a session that ends there because no more polls are allowed. Nothing where it has no such poll.
fn fails_at(
    alloc: Global,
    text: &[u8],
    poll: u32,
    written: &mut Vec<u8>,
    before: &mut Vec<u8>,
) -> Result<Option<bool>, NoMemory> {
    let failed = on_text(alloc, text, &[poll], &[], u32::MAX, written)?;
    if failed.outcome == Outcome::Finished {
        return Ok(None);
    }
    on_text(alloc, text, &[], &[], poll, before)?;
    Ok(Some(failed.outcome == Outcome::ReadFault && *written == *before))
}

/// Of the polls of a session, each of which fails once, how many end it as they should.
fn count_polls(
    alloc: Global,
    text: &[u8],
    written: &mut Vec<u8>,
    before: &mut Vec<u8>,
) -> Result<Counted, NoMemory> {
    let mut counted = Counted::NONE;
    for poll in 0..u32::MAX {
        match fails_at(alloc, text, poll, written, before)? {
            Some(is_right) => counted = counted.with(is_right),
            None => break,
        }
    }
    Ok(counted)
}

/// The same, as it is said.
fn failing_polls(alloc: Global, text: &[u8]) -> Result<String, NoMemory> {
    let (mut written, mut before) = (Vec::new(alloc), Vec::new(alloc));
    count_polls(alloc, text, &mut written, &mut before)?.said(alloc)
}

/// Whether a session of which this write is torn ends as it should: it is a write fault, and what was written is a front
/// of the answers. Nothing where it has no such write.
fn torn_at(
    alloc: Global,
    text: &[u8],
    torn: Torn,
    whole: &[u8],
    written: &mut Vec<u8>,
) -> Result<Option<bool>, NoMemory> {
    let ended = on_text(alloc, text, &[], &[torn], u32::MAX, written)?;
    if ended.outcome == Outcome::Finished {
        return Ok(None);
    }
    Ok(Some(ended.outcome == Outcome::WriteFault && whole.starts_with(written)))
}

/// Of the writes of a session, each of which is torn once and keeps so many bytes, how many end it as they should.
fn count_writes(
    alloc: Global,
    text: &[u8],
    kept: u32,
    whole: &[u8],
    written: &mut Vec<u8>,
) -> Result<Counted, NoMemory> {
    let mut counted = Counted::NONE;
    for write in 0..u32::MAX {
        match torn_at(alloc, text, Torn { write, kept }, whole, written)? {
            Some(is_right) => counted = counted.with(is_right),
            None => break,
        }
    }
    Ok(counted)
}

/// The same, as it is said.
fn torn_writes(alloc: Global, text: &[u8], kept: u32) -> Result<String, NoMemory> {
    let (mut written, mut whole) = (Vec::new(alloc), Vec::new(alloc));
    on_text(alloc, text, &[], &[], u32::MAX, &mut whole)?;
    count_writes(alloc, text, kept, whole.as_slice(), &mut written)?.said(alloc)
}

/// A text without what stands behind a byte in its line.
fn cut(alloc: Global, text: &[u8], at: usize) -> Result<Vec<u8>, NoMemory>
    requires { at < length text.now }
{
    let (front, behind) = text.split_at(at + 1);
    let rest = behind.iter().position(|byte| *byte == b'\n');
    let mut bytes = Vec::from_slice(alloc, front)?;
    bytes.extend_from_slice(&behind[rest.unwrap_or(behind.len())..])?;
    Ok(bytes)
}

/// Whether a session on a text that is cut behind a byte finishes with a lawful journal and an entry for each of so
/// many lines.
fn stands_cut(
    alloc: Global,
    text: &[u8],
    at: usize,
    lines: u32,
    written: &mut Vec<u8>,
) -> Result<bool, NoMemory>
    requires { at < length text.now }
{
    let bytes = cut(alloc, text, at)?;
    let ended = on_text(alloc, &bytes, &[], &[], u32::MAX, written)?;
    Ok(ended.outcome == Outcome::Finished && ended.inputs == Some(lines))
}

/// Of the bytes of a text's lines, behind each of which a line is cut once, how many leave such a session.
fn count_cuts(
    alloc: Global,
    text: &[u8],
    lines: u32,
    written: &mut Vec<u8>,
) -> Result<Counted, NoMemory> {
    let mut counted = Counted::NONE;
    for at in 0..text.len() {
        if text[at] != b'\n' {
            counted = counted.with(stands_cut(alloc, text, at, lines, written)?);
        }
    }
    Ok(counted)
}

/// The same, as it is said.
fn cut_lines(alloc: Global, text: &[u8], lines: u32) -> Result<String, NoMemory> {
    let mut written = Vec::new(alloc);
    count_cuts(alloc, text, lines, &mut written)?.said(alloc)
}

/// How a session ended to which no line came, and after how many polls.
fn told(alloc: Global, replayed: &Replayed<IdleSource, MemorySink>) -> Result<String, NoMemory> {
    let (outcome, polls) = (replayed.outcome, replayed.polls);
    Ok(format!(in alloc; "{outcome:?} {polls}")?)
}

/// What is said of a session to which no line comes.
fn idle(alloc: Global, allowed: u32) -> Result<String, NoMemory> {
    let sink = MemorySink::new(alloc, ROOM, &[])?;
    told(alloc, &run(alloc, IdleSource::new(), sink, allowed))
}

/// What is said of a row: `failing polls|TEXT`, `torn writes|KEPT|TEXT`, `cut lines|LINES|TEXT` or `idle|ALLOWED POLLS`.
pub(crate) fn say(alloc: Global, row: &Row) -> Result<String, NoMemory> {
    match row.text(0) {
        "failing polls" => failing_polls(alloc, row.bytes(1)),
        "torn writes" => torn_writes(alloc, row.bytes(2), row.number32(1)),
        "cut lines" => cut_lines(alloc, row.bytes(2), row.number32(1)),
        _ => idle(alloc, row.number32(1)),
    }
}
