// A journal's text is read from a source, poll by poll.

ghost use Rattle.std.specs.Prelude.{◌≡◌, ◌≤◌, []};
ghost use Rattle.fnc_journal.specs.declared.limits.TheConstants.{LONGEST_JOURNAL_LINE};
ghost use Rattle.fnc_told.specs.SourceAndSink.{change, source_told};
ghost use Rattle.fnc_audit.specs.declared.text.Awaited.{Awaited};
ghost use Rattle.fnc_audit.specs.Reading.{Polls, Reads, ended};

use crate::text::Text;
use fnc_journal::Outcome;
use fnc_outside::{LineBuf, Polled, Source};
use std::alloc::Global;

/// What a poll came to: the reading goes on, the source is at its end, or the reading ended by an outcome.
#[derive(Clone, Copy, Debug)]
pub(crate) enum Taken {
    More,
    Over,
    Ended(Outcome),
}

/// What a poll came to that gave a line.
fn ended(outcome: Option<Outcome>) -> Taken
    ensures { result ≡ ended outcome }
{
    match outcome {
        None => Taken::More,
        Some(outcome) => Taken::Ended(outcome),
    }
}

/// Polls the source once, and takes the line that it gave.
fn poll<S: Source>(alloc: Global, source: &mut S, text: &mut Text, line: &mut LineBuf) -> Taken
    requires holds_none { line.old.bytes ≡ [] }
    requires longest { line.old.size ≡ LONGEST_JOURNAL_LINE }
    ensures polls { let of_source = source_told S.given S.left S.faults in
        Polls result (change (of_source source.old) (of_source source.new)) text.old text.new }
    ensures limit { text.new.limit ≡ text.old.limit }
    ensures reads { S.faults source.old ≤ S.faults source.new }
    ensures empty { line.new.bytes ≡ [] }
    ensures size { line.new.size ≡ line.old.size }
{
    match source.poll(line) {
        Polled::Line => {
            let outcome = text.take_line(alloc, line.bytes());
            line.clear();
            ended(outcome)
        }
        Polled::TooLong => Taken::Ended(text.bad_line()),
        Polled::Again => Taken::More,
        Polled::End => Taken::Over,
        Polled::Failed => Taken::Ended(Outcome::ReadFault),
    }
}

/// Polls the source until it is at its end, a line ends the reading, a read fails, or `polls` polls were made. None
/// where the source is at its end.
pub(crate) fn read_text<S: Source>(
    alloc: Global,
    source: &mut S,
    text: &mut Text,
    line: &mut LineBuf,
    polls: u64,
) -> Option<Outcome>
    requires holds_none { line.old.bytes ≡ [] }
    requires longest { line.old.size ≡ LONGEST_JOURNAL_LINE }
    requires at_first { text.old.awaited ≡ Awaited.Head }
    ensures reads { let of_source = source_told S.given S.left S.faults in
        Reads result (change (of_source source.old) (of_source source.new)) polls text.new }
    ensures limit { text.new.limit ≡ text.old.limit }
{
    for _ in 0..polls {
        match poll(alloc, source, text, line) {
            Taken::More => {}
            Taken::Over => return None,
            Taken::Ended(outcome) => return Some(outcome),
        }
    }
    Some(Outcome::Budget)
}
