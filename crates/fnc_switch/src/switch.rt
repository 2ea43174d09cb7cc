// A switch and its text.

ghost use Rattle.std.specs.Prelude.{◌≡◌, ◌+◌, ◌≤◌, [], length, Ok, IfOk, IfErr, OnOk, OnErr, string_bytes, IsTrue};
ghost use Rattle.fnc_switch.specs.Agents as agents;
ghost use Rattle.fnc_switch.specs.Plugs as plugs;
ghost use Rattle.fnc_switch.specs.References.{references};
ghost use Rattle.fnc_switch.specs.Switches as switches;

use crate::action::Operation;
use crate::operations::operate;
use crate::plug::{LineFault, MOST_PLUGS, Plug, push_plug, read_plug};
use fnc_agent_api::cut;
use fnc_journal::{Bytes, NoMemory};
use std::alloc::Global;
use std::marker::Model;
use thiserror::Error;

/// A power switch: at most 1,024 plugs in their order.
#[derive(Debug, Drop)]
pub struct Switch {
    plugs: Vec<Plug>,
}

impl Model for Switch {
    ghost use Rattle.std.specs.Prelude.{List, IsTrue};
    ghost use Rattle.fnc_switch.specs.declared.plug.Plug.{Plug};
    ghost use Rattle.fnc_switch.specs.Switches.{is_switch};

    ghost Value = { List Plug };

    ghost view = { λ s. s.plugs.items };

    ghost invariant = { λ s. IsTrue (is_switch s.plugs.items) };
}

/// Why bytes are not the text of a switch, with the number of the line from 1.
#[derive(Clone, Copy, Debug, PartialEq, Eq, Error)]
pub enum SwitchFault {
    #[error("line {line} is no plug")]
    BadLine { line: u32 },
    #[error("out of memory")]
    NoMemory,
}

impl Switch {
    /// A switch without plugs.
    pub fn new(alloc: Global) -> Switch
        ensures { result ≡ [] }
    {
        Switch {
            plugs: Vec::new(alloc),
        }
    }

    /// The plugs in their order.
    pub fn as_slice(&self) -> &[Plug]
        ensures plugs { result.now ≡ self.now }
        ensures bounded { IsTrue (switches.is_switch result.now) }
    {
        self.plugs.as_slice()
    }

    /// Switches the plugs that a value means, and answers the status.
    pub(crate) fn operate(&mut self, operation: Operation, value: &str) -> u8
        ensures { agents.operates operation (references value.now) self.old ≡ agents.silent result self.new }
    {
        operate(operation, self.plugs.as_mut_slice(), value)
    }

    /// How many plugs there are.
    fn count(&self) -> u32
        ensures count { result ≡ length self.now }
        ensures bound { result ≤ MOST_PLUGS }
    {
        self.plugs.len() as u32
    }

    /// Adds at the end the plug that a line is, without its line feed. `NoPlug` where the line is none, or where there
    /// are 1,024 plugs; `NoMemory` where memory was refused. The switch then stays as it is.
    pub fn add_line(&mut self, alloc: Global, line: &[u8]) -> Result<(), LineFault>
        ensures ok { IfOk result (λ _.
            switches.Gains self.old self.new (switches.plug_at (length self.old + 1) line.now)) }
        ensures err { IfErr result (λ e. plugs.Refuses e (switches.plug_at (length self.old + 1) line.now)) }
        ensures unchanged { OnErr result (self.new ≡ self.old) }
    {
        if self.plugs.len() >= MOST_PLUGS {
            return Err(LineFault::NoPlug);
        }
        let plug = read_plug(alloc, line)?;
        match self.plugs.push(plug) {
            Ok(()) => Ok(()),
            Err(_) => Err(LineFault::NoMemory),
        }
    }
}

/// Reads the text of a switch, one plug a line: `NAME,ALIAS,on,FAILURES` or `NAME,ALIAS,off,FAILURES`. The last line
/// needs no line feed. The name has 1 to 255 bytes and the alias up to 255, in UTF-8 without comma and control bytes;
/// the failures are 0 to 1,000,000 in decimal digits without leading zeros. `BadLine` names the first other line, from
/// 1; the line after 1,024 plugs is one.
pub fn read_switch(alloc: Global, text: &[u8]) -> Result<Switch, SwitchFault>
    ensures { switches.Gives result (switches.switch_of text.now) }
{
    let mut switch = Switch::new(alloc);
    match add_lines(alloc, &mut switch, text) {
        Ok(()) => Ok(switch),
        Err(fault) => Err(fault),
    }
}

/// Adds the plugs of a text to a switch without plugs.
fn add_lines(alloc: Global, switch: &mut Switch, text: &[u8]) -> Result<(), SwitchFault>
    requires { switch.old ≡ [] }
    ensures ok { OnOk result (switches.switch_of text.now ≡ Ok switch.new) }
    ensures err { IfErr result (λ e. switches.Fails e (switches.switch_of text.now)) }
{
    let mut rest = text;
    while !rest.is_empty() {
        let (line, after) = cut(rest, b'\n');
        match switch.add_line(alloc, line) {
            Ok(()) => rest = after,
            Err(LineFault::NoPlug) => {
                return Err(SwitchFault::BadLine {
                    line: switch.count() + 1,
                });
            }
            Err(LineFault::NoMemory) => return Err(SwitchFault::NoMemory),
        }
    }
    Ok(())
}

/// The text of a switch, which reads back as this switch.
pub fn switch_text(alloc: Global, switch: &Switch) -> Result<Bytes, NoMemory>
    ensures value { IfOk result (λ text. text ≡ switches.text_of switch.now) }
    ensures reads_back { IfOk result (λ text. switches.switch_of text ≡ Ok switch.now) }
{
    Ok(Bytes::from_vec(plugs_text(alloc, switch.as_slice())?.into_bytes()))
}

fn plugs_text(alloc: Global, plugs: &[Plug]) -> Result<String, NoMemory>
    ensures { IfOk result (λ text. string_bytes text ≡ switches.text_of plugs.now) }
{
    let mut text = String::new(alloc);
    for plug in plugs {
        push_plug(&mut text, plug)?;
    }
    Ok(text)
}
