// What `list` prints.

ghost use Rattle.std.specs.Prelude.{◌≡◌, ◌++◌, IfOk, OnOk, string_bytes};
ghost use Rattle.std.specs.List.{flat_map};
ghost use Rattle.fnc_switch.specs.Agents.{listed};

use crate::plug::Plug;
use fnc_journal::{Bytes, NoMemory};
use std::alloc::Global;

/// The plugs, one a line: the name, a comma and the alias.
pub(crate) fn listing(alloc: Global, plugs: &[Plug]) -> Result<Bytes, NoMemory>
    ensures { IfOk result (λ text. text ≡ flat_map listed plugs.now) }
{
    Ok(Bytes::from_vec(text_of(alloc, plugs)?.into_bytes()))
}

fn text_of(alloc: Global, plugs: &[Plug]) -> Result<String, NoMemory>
    ensures { IfOk result (λ text. string_bytes text ≡ flat_map listed plugs.now) }
{
    let mut text = String::new(alloc);
    for plug in plugs {
        push_listed(&mut text, plug)?;
    }
    Ok(text)
}

fn push_listed(text: &mut String, plug: &Plug) -> Result<(), NoMemory>
    ensures { OnOk result (string_bytes text.new ≡ string_bytes text.old ++ listed plug.now) }
{
    text.push_str(plug.name.as_str())?;
    text.push(',')?;
    text.push_str(plug.alias.as_str())?;
    text.push('\n')?;
    Ok(())
}
