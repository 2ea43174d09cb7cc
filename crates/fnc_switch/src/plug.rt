// A plug of a switch, and its line.

ghost use Rattle.std.specs.Prelude.{◌≡◌, ◌++◌, option_map, string_bytes, OnOk};
ghost use Rattle.std.specs.List.{list_all};
ghost use Rattle.std.specs.Str.{is_utf8};
ghost use Rattle.fnc_switch.specs.Plugs as plugs;

use fnc_agent_api::cut;
use fnc_journal::limits::LONGEST_NAME;
use fnc_journal::{NoMemory, Text, is_value_byte};
use fnc_text::read_number;
use itoa::Buffer;
use std::alloc::Global;

/// The greatest number of plugs of a switch.
pub const MOST_PLUGS: usize = 1_024;

/// The greatest number of failures that a plug can have left.
pub const MOST_FAILURES: u64 = 1_000_000;

/// A plug of a power switch.
#[derive(Debug, Drop)]
pub struct Plug {
    /// What it is called: 1 to 255 bytes without comma and control bytes.
    pub name: Text,
    /// What it is called too, or nothing.
    pub alias: Text,
    /// Whether what is plugged in has power.
    pub on: bool,
    /// How many times it fails before it is switched again.
    pub failures: u32,
}

/// Why a line is not read.
#[derive(Clone, Copy, Debug, PartialEq, Eq)]
pub enum LineFault {
    /// It is the line of no plug, or of one more than a switch has.
    NoPlug,
    /// Memory was refused.
    NoMemory,
}

impl From<NoMemory> for LineFault {
    ghost use Rattle.std.specs.Prelude.{◌≡◌};
    ghost use Rattle.fnc_switch.specs.declared.plug.LineFault.TheVariants as faults;

    ghost from_gives = { λ _ e. e ≡ faults.NoMemory };

    fn from(_want: NoMemory) -> LineFault {
        LineFault::NoMemory
    }
}

fn is_plug_byte(byte: u8) -> bool
    ensures { result ≡ plugs.is_plug_byte byte }
{
    is_value_byte(byte) && byte != b','
}

/// The text that bytes are.
fn as_text(bytes: &[u8]) -> Option<&str>
    ensures { option_map (λ t. t.now) result ≡ plugs.tested is_utf8 bytes.now }
{
    match str::from_utf8(bytes) {
        Ok(text) => Some(text),
        Err(_) => None,
    }
}

fn are_plug_bytes(bytes: &[u8]) -> bool
    ensures { result ≡ list_all plugs.is_plug_byte bytes.now }
{
    bytes.iter().all(|b| is_plug_byte(*b))
}

/// The text that bytes are, where they can be an alias.
fn alias(bytes: &[u8]) -> Option<&str>
    ensures { option_map (λ t. t.now) result ≡ plugs.tested plugs.is_alias bytes.now }
{
    if bytes.len() <= LONGEST_NAME && are_plug_bytes(bytes) {
        as_text(bytes)
    } else {
        None
    }
}

/// The text that bytes are, where they can be a name.
fn name(bytes: &[u8]) -> Option<&str>
    ensures { option_map (λ t. t.now) result ≡ plugs.tested plugs.is_name bytes.now }
{
    if bytes.is_empty() { None } else { alias(bytes) }
}

/// Whether a plug is on, by its word.
fn state(word: &[u8]) -> Option<bool>
    ensures { result ≡ plugs.state_of word.now }
{
    if word == b"on".as_slice() {
        Some(true)
    } else if word == b"off".as_slice() {
        Some(false)
    } else {
        None
    }
}

fn has_leading_zero(digits: &[u8]) -> bool
    ensures { result ≡ plugs.has_leading_zero digits.now }
{
    digits.len() > 1 && digits[0] == b'0'
}

/// How many failures digits spell.
fn failures(digits: &[u8]) -> Option<u32>
    ensures { result ≡ plugs.failures_of digits.now }
{
    if has_leading_zero(digits) {
        return None;
    }
    let number = read_number(digits, MOST_FAILURES)?;
    Some(number as u32)
}

/// The plug that a line is, without its line feed.
pub(crate) fn read_plug(alloc: Global, line: &[u8]) -> Result<Plug, LineFault>
    ensures { plugs.Reads result (plugs.plug_of line.now) }
{
    let (front, rest) = cut(line, b',');
    let (second, rest) = cut(rest, b',');
    let (word, digits) = cut(rest, b',');
    match (name(front), alias(second), state(word), failures(digits)) {
        (Some(name), Some(alias), Some(on), Some(failures)) => Ok(Plug {
            name: Text::new(alloc, name)?,
            alias: Text::new(alloc, alias)?,
            on,
            failures,
        }),
        _ => Err(LineFault::NoPlug),
    }
}

/// Writes the line of a plug.
pub(crate) fn push_plug(text: &mut String, plug: &Plug) -> Result<(), NoMemory>
    ensures { OnOk result (string_bytes text.new ≡ string_bytes text.old ++ plugs.plug_line plug.now) }
{
    text.push_str(plug.name.as_str())?;
    text.push(',')?;
    text.push_str(plug.alias.as_str())?;
    text.push_str(if plug.on { ",on," } else { ",off," })?;
    text.push_str(Buffer::new().format(plug.failures))?;
    text.push('\n')?;
    Ok(())
}
