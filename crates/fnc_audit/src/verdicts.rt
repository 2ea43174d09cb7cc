// The verdict on a journal, as it is written and as an outcome.

ghost use Rattle.std.specs.Prelude.{◌≡◌, ◌≤◌, OnOk, OnErr};
ghost use Rattle.fnc_outside.specs.Faults.{Rose};
ghost use Rattle.fnc_outside.specs.Told.{Gains};
ghost use Rattle.fnc_outside.specs.Writes.{AppendsPart};
ghost use Rattle.fnc_judge.specs.Verdicts.{fault_of};
ghost use Rattle.fnc_audit.specs.Said as Said;

use fnc_journal::{Outcome, Rule};
use fnc_judge::Verdict;
use fnc_outside::{Sink, SinkFailed};
use fnc_printing::{Piece, print_pieces};

/// The word of a rule.
fn rule_word(rule: Rule) -> &'static str
    ensures { result.now ≡ Said.rule_word rule }
{
    match rule {
        Rule::Order => "order",
        Rule::Exit => "exit",
        Rule::Start => "start",
        Rule::Once => "once",
        Rule::Reply => "reply",
        Rule::Prompt => "prompt",
    }
}

/// The outcome of a verdict.
pub(crate) fn verdict_outcome(verdict: Verdict) -> Outcome
    ensures { result ≡ Said.verdict_outcome (fault_of verdict) }
{
    match verdict {
        Verdict::Lawful => Outcome::Finished,
        Verdict::Unlawful { index, rule } => Outcome::Unlawful { index, rule },
    }
}

/// Prints the line of a verdict on a journal of so many entries.
pub(crate) fn print_verdict<K: Sink>(
    verdict: Verdict,
    entries: u32,
    sink: &mut K,
) -> Result<(), SinkFailed>
    ensures ok { OnOk result (Gains (K.held sink.old) (K.held sink.new) (Said.verdict_line entries (fault_of verdict))) }
    ensures err { OnErr result (AppendsPart (K.held sink.old) (K.held sink.new)
        (Said.verdict_line entries (fault_of verdict))) }
    ensures count { K.faults sink.old ≤ K.faults sink.new }
    ensures cause { OnErr result (Rose (K.faults sink.old) (K.faults sink.new)) }
{
    match verdict {
        Verdict::Lawful => print_pieces(
            &[
                Piece::Word("lawful "),
                Piece::Number(u64::from(entries)),
                Piece::Word("\n"),
            ],
            sink,
        ),
        Verdict::Unlawful { index, rule } => print_pieces(
            &[
                Piece::Word("unlawful "),
                Piece::Number(u64::from(index)),
                Piece::Word(" "),
                Piece::Word(rule_word(rule)),
                Piece::Word("\n"),
            ],
            sink,
        ),
    }
}
