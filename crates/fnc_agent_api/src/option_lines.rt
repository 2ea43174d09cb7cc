// What a fencer sends to an agent.

ghost use Rattle.std.specs.Prelude.{◌≡◌, ◌≤◌, ◌++◌, [], ◌∷◌, length, option_to_list, Ok, IfOk, OnOk, string_bytes};
ghost use Rattle.std.specs.Prelude.{codes};
ghost use Rattle.std.specs.Option.{option_copied};
ghost use Rattle.fnc_agent_api.specs.Options.{options_of, pair};
ghost use Rattle.fnc_agent_api.specs.OptionLines.{AreSendable, sent, node_option, option_line, option_lines};

use fnc_journal::limits::LONGEST_OPTIONS;
use fnc_journal::{Bytes, NoMemory, Pair, Pairs};
use std::alloc::Global;

/// The text that an agent reads for one run, by the Fence Agent API: a line `name=value` for the action's word,
/// then for the node's name, the port and the device's own options, as far as they are given.
pub fn options_text(
    alloc: Global,
    word: &str,
    nodename: Option<&str>,
    port: Option<&Pair>,
    own: &Pairs,
) -> Result<Bytes, NoMemory>
    requires { AreSendable (option_to_list (option_copied port) ++ own.now) }
    ensures value { IfOk result (λ text. text
        ≡ option_lines (sent word.now (option_copied nodename.entry) (option_copied port.entry) own.now)) }

    // An agent that reads the text finds these options.
    ensures reads_back { IfOk result (λ text.
        let options = sent word.now (option_copied nodename.entry) (option_copied port.entry) own.now in
        AreSendable options → length text ≤ LONGEST_OPTIONS → options_of text ≡ Ok options) }
{
    Ok(Bytes::from_vec(text_of(alloc, word, nodename, port, own.as_slice())?.into_bytes()))
}

fn text_of(
    alloc: Global,
    word: &str,
    nodename: Option<&str>,
    port: Option<&Pair>,
    own: &[Pair],
) -> Result<String, NoMemory>
    ensures { IfOk result (λ text. string_bytes text
        ≡ option_lines (sent word.now (option_copied nodename.entry) (option_copied port.entry) own.now)) }
{
    let mut text = String::new(alloc);
    push_option(&mut text, "action", word)?;
    push_node(&mut text, nodename)?;
    push_given(&mut text, port)?;
    push_all(&mut text, own)?;
    Ok(text)
}

fn push_node(text: &mut String, nodename: Option<&str>) -> Result<(), NoMemory>
    ensures { OnOk result (string_bytes text.new
        ≡ string_bytes text.old ++ option_lines (node_option (option_copied nodename.entry))) }
{
    if let Some(name) = nodename {
        push_option(text, "nodename", name)?;
    }
    Ok(())
}

fn push_given(text: &mut String, pair: Option<&Pair>) -> Result<(), NoMemory>
    ensures { OnOk result (string_bytes text.new
        ≡ string_bytes text.old ++ option_lines (option_to_list (option_copied pair.entry))) }
{
    if let Some(pair) = pair {
        push_option(text, pair.name.as_str(), pair.value.as_str())?;
    }
    Ok(())
}

fn push_all(text: &mut String, pairs: &[Pair]) -> Result<(), NoMemory>
    ensures { OnOk result (string_bytes text.new ≡ string_bytes text.old ++ option_lines pairs.now) }
{
    for pair in pairs {
        push_option(text, pair.name.as_str(), pair.value.as_str())?;
    }
    Ok(())
}

fn push_option(text: &mut String, name: &str, value: &str) -> Result<(), NoMemory>
    ensures { OnOk result (string_bytes text.new
        ≡ string_bytes text.old ++ option_line (pair name.now value.now)) }
{
    text.push_str(name)?;
    text.push('=')?;
    text.push_str(value)?;
    text.push('\n')?;
    Ok(())
}
