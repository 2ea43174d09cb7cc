// The options that an agent is sent on its standard input.

ghost use Rattle.std.specs.Prelude.{◌≡◌, ◌+◌, ◌<◌, ◌≤◌, ◌^◌, length, option_map, IfOk, IfErr};
ghost use Rattle.std.specs.Option.{option_copied};
ghost use Rattle.fnc_agent_api.specs.Options.{options_of, pairs_of, pair_of, parts_of, pair, is_skipped, last_value};
ghost use Rattle.fnc_agent_api.specs.Options.{Gives, Fails, Adds};
ghost use Rattle.fnc_agent_api.specs.Cuts.{lines_of};
ghost use Rattle.fnc_agent_api.specs.Blanks.{trimmed};

use crate::blanks::trimmed_text;
use crate::cuts::cut_text;
use fnc_journal::limits::LONGEST_OPTIONS;
use fnc_journal::{NoMemory, Pair, Pairs, Text};
use std::alloc::Global;
use std::marker::Model;
use thiserror::Error;

/// Why bytes are no options, with the number of the line from 1.
#[derive(Clone, Copy, Debug, PartialEq, Eq, Error)]
pub enum OptionFault {
    #[error("the options are longer than 32768 bytes")]
    TooLong,
    #[error("the options are not UTF-8")]
    NotUtf8,
    #[error("line {line} has no `=`")]
    NoEquals { line: u32 },
    #[error("line {line} has no name before its `=`")]
    EmptyName { line: u32 },
    #[error("out of memory")]
    NoMemory,
}

impl From<NoMemory> for OptionFault {
    ghost use Rattle.std.specs.Prelude.{◌≡◌};
    ghost use Rattle.fnc_agent_api.specs.declared.options.OptionFault.TheVariants as faults;

    ghost from_gives = { λ _ e. e ≡ faults.NoMemory };

    fn from(_want: NoMemory) -> OptionFault {
        OptionFault::NoMemory
    }
}

/// The options that an agent reads, in their order. A name may stand several times.
#[derive(Debug, Drop)]
pub struct Options {
    pairs: Pairs,
}

impl Model for Options {
    ghost use Rattle.std.specs.Prelude.{List};
    ghost use Rattle.fnc_journal.specs.declared.names.Pair.{Pair};

    ghost Value = { List Pair };

    ghost view = { λ o. o.pairs };
}

impl Options {
    /// The value of an option: that of the last pair of its name.
    pub fn get(&self, name: &str) -> Option<&Text>
        ensures { option_copied result ≡ last_value name.now self.now }
    {
        self.as_slice()
            .iter()
            .rev()
            .find(|p| p.name.is(name))
            .map(|p| &p.value)
    }

    /// The pairs in their order.
    pub fn as_slice(&self) -> &[Pair]
        ensures { result.now ≡ self.now }
    {
        self.pairs.as_slice()
    }
}

/// Reads what an agent is sent, by the Fence Agent API: a `name=value` on each line. The name ends at the first
/// `=`. Blanks at both ends of a line are dropped, and empty lines and those that begin with `#` are skipped.
pub fn read_options(alloc: Global, input: &[u8]) -> Result<Options, OptionFault>
    ensures { Gives result (options_of input.now) }
{
    if input.len() > LONGEST_OPTIONS {
        return Err(OptionFault::TooLong);
    }
    match str::from_utf8(input) {
        Ok(text) => read_lines(alloc, text),
        Err(_) => Err(OptionFault::NotUtf8),
    }
}

fn read_lines(alloc: Global, text: &str) -> Result<Options, OptionFault>
    requires { length text.now ≤ LONGEST_OPTIONS }
    ensures { Gives result (pairs_of 1 (lines_of text.now)) }
{
    let mut pairs = Pairs::new(alloc);
    let mut rest = text;
    let mut number = 1;
    while !rest.is_empty() {
        let (line, after) = cut_text(rest, '\n');
        add_line(alloc, &mut pairs, trimmed_text(line), number)?;
        rest = after;
        number += 1;
    }
    Ok(Options { pairs })
}

fn add_line(alloc: Global, pairs: &mut Pairs, line: &str, number: u32) -> Result<(), OptionFault>
    ensures ok { IfOk result (λ _. Adds pairs.old pairs.new (pair_of number line.now)) }
    ensures err { IfErr result (λ e. Fails e (pair_of number line.now)) }
{
    if let Some(pair) = read_pair(alloc, line, number)? {
        pairs.push(pair)?;
    }
    Ok(())
}

fn read_pair(alloc: Global, line: &str, number: u32) -> Result<Option<Pair>, OptionFault>
    ensures { Gives result (pair_of number line.now) }
{
    if is_skipped_line(line) {
        return Ok(None);
    }
    let Some((name, value)) = parts(line) else {
        return Err(OptionFault::NoEquals { line: number });
    };
    if name.is_empty() {
        return Err(OptionFault::EmptyName { line: number });
    }
    Ok(Some(Pair {
        name: Text::new(alloc, name)?,
        value: Text::new(alloc, value)?,
    }))
}

#[tactic(auto, using(crate::proofs::OptionLemmas::is_skipped_at))]
fn is_skipped_line(line: &str) -> bool
    ensures { result ≡ is_skipped line.now }
{
    line.is_empty() || line.starts_with('#')
}

#[tactic(auto, using(crate::proofs::OptionLemmas::parts_found, crate::proofs::OptionLemmas::parts_none))]
fn parts(line: &str) -> Option<(&str, &str)>
    ensures { option_map (λ x. pair x.0.now x.1.now) result ≡ parts_of line.now }
{
    line.split_once('=')
}
