// The line in which a workload is summed up.

ghost use Rattle.std.specs.Prelude.{◌≤◌, OnOk, OnErr};
ghost use Rattle.fnc_outside.specs.Faults.{Rose};
ghost use Rattle.fnc_outside.specs.Told.{Gains};
ghost use Rattle.fnc_outside.specs.Writes.{AppendsPart};
ghost use Rattle.fnc_workload.specs.Summed.{summary, summary_line};

use crate::tally::{Tally, counted};
use fnc_journal::Journal;
use fnc_outside::{Sink, SinkFailed};
use fnc_printing::{Piece, print_pieces};

/// Writes the line of a workload with so many entries and these counts.
fn print_counts<K: Sink>(
    number: u64,
    count: u32,
    entries: u32,
    tally: Tally,
    sink: &mut K,
) -> Result<(), SinkFailed>
    ensures ok { OnOk result (Gains (K.held sink.old) (K.held sink.new)
        (summary (record { number = number; count = count }) entries tally)) }
    ensures err { OnErr result (AppendsPart (K.held sink.old) (K.held sink.new)
        (summary (record { number = number; count = count }) entries tally)) }
    ensures writes { K.faults sink.old ≤ K.faults sink.new }
    ensures cause { OnErr result (Rose (K.faults sink.old) (K.faults sink.new)) }
{
    print_pieces(
        &[
            Piece::Word("workload "),
            Piece::Number(number),
            Piece::Word(" "),
            Piece::Number(u64::from(count)),
            Piece::Word(" entries "),
            Piece::Number(u64::from(entries)),
            Piece::Word(" asked "),
            Piece::Number(u64::from(tally.asked)),
            Piece::Word(" answered "),
            Piece::Number(u64::from(tally.answered)),
            Piece::Word(" passed "),
            Piece::Number(u64::from(tally.passed)),
            Piece::Word(" levels "),
            Piece::Number(u64::from(tally.levels)),
            Piece::Word(" time "),
            Piece::Number(u64::from(tally.time)),
            Piece::Word(" none "),
            Piece::Number(u64::from(tally.none)),
            Piece::Word(" refused "),
            Piece::Number(u64::from(tally.refused)),
            Piece::Word("\n"),
        ],
        sink,
    )
}

/// Writes the line that sums up a journal. Where a write fails a part from the front of it was written.
pub(crate) fn print_summary<K: Sink>(
    journal: &Journal,
    number: u64,
    count: u32,
    sink: &mut K,
) -> Result<(), SinkFailed>
    ensures ok { OnOk result (Gains (K.held sink.old) (K.held sink.new)
        (summary_line (record { number = number; count = count }) journal.now.history)) }
    ensures err { OnErr result (AppendsPart (K.held sink.old) (K.held sink.new)
        (summary_line (record { number = number; count = count }) journal.now.history)) }
    ensures writes { K.faults sink.old ≤ K.faults sink.new }
    ensures cause { OnErr result (Rose (K.faults sink.old) (K.faults sink.new)) }
{
    print_counts(number, count, journal.len(), counted(journal), sink)
}
