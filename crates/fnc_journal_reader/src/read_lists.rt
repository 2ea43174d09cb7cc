// Lists of a line, read part by part.

ghost use Rattle.std.specs.Prelude.{◌≡◌, ◌==◌};
ghost use Rattle.std.specs.List.{list_any};
ghost use Rattle.fnc_journal_reader.specs.Cuts.{parts};
ghost use Rattle.fnc_journal_reader.specs.Reads.{Gives, each};
ghost use Rattle.fnc_journal_reader.specs.Values as Values;

use crate::cuts::{after, front};
use crate::fault::EntryFault;
use crate::values::{read_delay, read_own, read_pair, read_parameter, read_text, read_u64};
use fnc_journal::{Base, Delays, Names, Pairs, Parameters};
use std::alloc::Global;

/// Names separated by commas.
pub(crate) fn read_names(alloc: Global, text: &[u8]) -> Result<Names, EntryFault>
    ensures { Gives result (each Values.text_of (parts 44 text.now)) }
{
    let mut names = Names::new(alloc);
    let mut rest = text;
    while !rest.is_empty() {
        names.push(read_text(alloc, front(rest, b','))?)?;
        rest = after(rest, b',');
    }
    Ok(names)
}

/// Hosts and their ports, separated by semicolons.
pub(crate) fn read_map(alloc: Global, text: &[u8]) -> Result<Pairs, EntryFault>
    ensures { Gives result (each (Values.pair_of 58) (parts 59 text.now)) }
{
    let mut pairs = Pairs::new(alloc);
    let mut rest = text;
    while !rest.is_empty() {
        pairs.push(read_pair(alloc, front(rest, b';'), b':')?)?;
        rest = after(rest, b';');
    }
    Ok(pairs)
}

/// Nodes and their delays, separated by semicolons.
fn read_delays(alloc: Global, text: &[u8]) -> Result<Delays, EntryFault>
    ensures { Gives result (each Values.delay_of (parts 59 text.now)) }
{
    let mut delays = Delays::new(alloc);
    let mut rest = text;
    while !rest.is_empty() {
        delays.push(read_delay(alloc, front(rest, b';'))?)?;
        rest = after(rest, b';');
    }
    Ok(delays)
}

/// A delay for all nodes, or node by node.
pub(crate) fn read_base(alloc: Global, text: &[u8]) -> Result<Base, EntryFault>
    ensures { Gives result (Values.base_of text.now) }
{
    if has_colon(text) {
        Ok(Base::ByNode(read_delays(alloc, text)?))
    } else {
        Ok(Base::Fixed(read_u64(text)?))
    }
}

fn has_colon(text: &[u8]) -> bool
    ensures { result ≡ list_any (λ b. b == 58) text.now }
{
    text.iter().any(|b| *b == b':')
}

/// Own options, a word for each.
pub(crate) fn read_owns(alloc: Global, text: &[u8]) -> Result<Pairs, EntryFault>
    ensures { Gives result (each Values.own_of (parts 32 text.now)) }
{
    let mut options = Pairs::new(alloc);
    let mut rest = text;
    while !rest.is_empty() {
        options.push(read_own(alloc, front(rest, b' '))?)?;
        rest = after(rest, b' ');
    }
    Ok(options)
}

/// Parameters of an agent, a word for each.
pub(crate) fn read_parameters(alloc: Global, text: &[u8]) -> Result<Parameters, EntryFault>
    ensures { Gives result (each Values.parameter_of (parts 32 text.now)) }
{
    let mut parameters = Parameters::new(alloc);
    let mut rest = text;
    while !rest.is_empty() {
        parameters.push(read_parameter(alloc, front(rest, b' '))?)?;
        rest = after(rest, b' ');
    }
    Ok(parameters)
}
