// Lists in a line: the items one after another, with what separates them.

ghost use Rattle.std.specs.Prelude.{◌≤◌, OnOk, OnErr};
ghost use Rattle.fnc_outside.specs.Faults.{Rose};
ghost use Rattle.fnc_outside.specs.Told.{Gains};
ghost use Rattle.fnc_outside.specs.Writes.{AppendsPart};
ghost use Rattle.fnc_journal_text.specs.Spelled.{names_text, map_text, delays_text, parameters_text, own_text};

use crate::words::flag_word;
use fnc_journal::{Delay, Pair, Parameter, Text};
use fnc_outside::{Sink, SinkFailed};
use fnc_printing::{Piece, print_pieces};

/// Writes names separated by commas.
pub(crate) fn print_names<K: Sink>(names: &[Text], sink: &mut K) -> Result<(), SinkFailed>
    ensures ok { OnOk result (Gains (K.held sink.old) (K.held sink.new) (names_text names.now)) }
    ensures err { OnErr result (AppendsPart (K.held sink.old) (K.held sink.new) (names_text names.now)) }
    ensures count { K.faults sink.old ≤ K.faults sink.new }
    ensures cause { OnErr result (Rose (K.faults sink.old) (K.faults sink.new)) }
{
    let mut before = "";
    for name in names {
        print_pieces(&[Piece::Word(before), Piece::Name(name.as_str())], sink)?;
        before = ",";
    }
    Ok(())
}

/// Writes hosts with their ports, separated by semicolons.
pub(crate) fn print_map<K: Sink>(pairs: &[Pair], sink: &mut K) -> Result<(), SinkFailed>
    ensures ok { OnOk result (Gains (K.held sink.old) (K.held sink.new) (map_text pairs.now)) }
    ensures err { OnErr result (AppendsPart (K.held sink.old) (K.held sink.new) (map_text pairs.now)) }
    ensures count { K.faults sink.old ≤ K.faults sink.new }
    ensures cause { OnErr result (Rose (K.faults sink.old) (K.faults sink.new)) }
{
    let mut before = "";
    for pair in pairs {
        print_pieces(
            &[
                Piece::Word(before),
                Piece::Name(pair.name.as_str()),
                Piece::Word(":"),
                Piece::Name(pair.value.as_str()),
            ],
            sink,
        )?;
        before = ";";
    }
    Ok(())
}

/// Writes nodes with their delays, separated by semicolons.
pub(crate) fn print_delays<K: Sink>(delays: &[Delay], sink: &mut K) -> Result<(), SinkFailed>
    ensures ok { OnOk result (Gains (K.held sink.old) (K.held sink.new) (delays_text delays.now)) }
    ensures err { OnErr result (AppendsPart (K.held sink.old) (K.held sink.new) (delays_text delays.now)) }
    ensures count { K.faults sink.old ≤ K.faults sink.new }
    ensures cause { OnErr result (Rose (K.faults sink.old) (K.faults sink.new)) }
{
    let mut before = "";
    for delay in delays {
        print_pieces(
            &[
                Piece::Word(before),
                Piece::Name(delay.name.as_str()),
                Piece::Word(":"),
                Piece::Number(delay.ms),
            ],
            sink,
        )?;
        before = ";";
    }
    Ok(())
}

/// Writes a word for each parameter of an agent, a space before each.
pub(crate) fn print_parameters<K: Sink>(
    parameters: &[Parameter],
    sink: &mut K,
) -> Result<(), SinkFailed>
    ensures ok { OnOk result (Gains (K.held sink.old) (K.held sink.new) (parameters_text parameters.now)) }
    ensures err { OnErr result (AppendsPart (K.held sink.old) (K.held sink.new) (parameters_text parameters.now)) }
    ensures count { K.faults sink.old ≤ K.faults sink.new }
    ensures cause { OnErr result (Rose (K.faults sink.old) (K.faults sink.new)) }
{
    for parameter in parameters {
        print_pieces(
            &[
                Piece::Word(" p."),
                Piece::Name(parameter.name.as_str()),
                Piece::Word("="),
                Piece::Word(flag_word(parameter.required)),
            ],
            sink,
        )?;
    }
    Ok(())
}

/// Writes a word for each own option of a device, a space before each.
pub(crate) fn print_own<K: Sink>(options: &[Pair], sink: &mut K) -> Result<(), SinkFailed>
    ensures ok { OnOk result (Gains (K.held sink.old) (K.held sink.new) (own_text options.now)) }
    ensures err { OnErr result (AppendsPart (K.held sink.old) (K.held sink.new) (own_text options.now)) }
    ensures count { K.faults sink.old ≤ K.faults sink.new }
    ensures cause { OnErr result (Rose (K.faults sink.old) (K.faults sink.new)) }
{
    for option in options {
        print_pieces(
            &[
                Piece::Word(" o."),
                Piece::Name(option.name.as_str()),
                Piece::Word("="),
                Piece::Name(option.value.as_str()),
            ],
            sink,
        )?;
    }
    Ok(())
}
