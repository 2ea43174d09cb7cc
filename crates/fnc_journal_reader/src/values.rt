// What the words of a line are read as.

ghost use Rattle.std.specs.Prelude.{◌≡◌, ◌≤◌, IfOk, bytes_eq, drop};
ghost use Rattle.fnc_journal_reader.specs.Reads.{Gives};
ghost use Rattle.fnc_journal_reader.specs.Values as Values;

use crate::cuts::{after, front};
use crate::fault::EntryFault;
use fnc_journal::limits::GREATEST_PRIORITY;
use fnc_journal::{Actions, Allowed, Delay, LevelTarget, Pair, Parameter, Text};
use fnc_text::{EscapeFault, read_number, unescape};
use std::alloc::Global;

/// A number of at most this.
fn number(text: &[u8], most: u64) -> Result<u64, EntryFault>
    ensures value { result ≡ Values.number_of most text.now }
    ensures within { IfOk result (λ n. n ≤ most) }
{
    match read_number(text, most) {
        Some(number) => Ok(number),
        None => Err(EntryFault::Malformed),
    }
}

/// A number of 64 bits.
pub(crate) fn read_u64(text: &[u8]) -> Result<u64, EntryFault>
    ensures { result ≡ Values.u64_of text.now }
{
    number(text, u64::MAX)
}

/// A number of 32 bits.
pub(crate) fn read_u32(text: &[u8]) -> Result<u32, EntryFault>
    ensures { result ≡ Values.u32_of text.now }
{
    let number = number(text, 4_294_967_295)?;
    Ok(number as u32)
}

/// A number of 8 bits.
pub(crate) fn read_u8(text: &[u8]) -> Result<u8, EntryFault>
    ensures { result ≡ Values.u8_of text.now }
{
    let number = number(text, 255)?;
    Ok(number as u8)
}

/// The text that a word spells.
pub(crate) fn read_text(alloc: Global, word: &[u8]) -> Result<Text, EntryFault>
    ensures { Gives result (Values.text_of word.now) }
{
    match unescape(alloc, word) {
        Ok(text) => Ok(text),
        Err(EscapeFault::NoMemory) => Err(EntryFault::NoMemory),
        Err(_) => Err(EntryFault::Malformed),
    }
}

/// A text that need not be there.
pub(crate) fn read_optional(alloc: Global, word: &[u8]) -> Result<Option<Text>, EntryFault>
    ensures { Gives result (Values.optional_of word.now) }
{
    match word {
        [] => Ok(None),
        _ => Ok(Some(read_text(alloc, word)?)),
    }
}

/// A flag.
pub(crate) fn read_flag(word: &[u8]) -> bool
    ensures { result ≡ Values.flag_of word.now }
{
    word == b"1".as_slice()
}

/// Whether a word is in a list.
fn has_word(text: &[u8], word: &str) -> bool
    ensures { result ≡ Values.has_word text.now word.now }
{
    let mut rest = text;
    while !rest.is_empty() {
        if word.as_bytes() == front(rest, b',') {
            return true;
        }
        rest = after(rest, b',');
    }
    false
}

/// A list of actions.
pub(crate) fn read_actions(text: &[u8]) -> Actions
    ensures { result ≡ Values.actions_of text.now }
{
    Actions {
        on: has_word(text, "on"),
        off: has_word(text, "off"),
        reboot: has_word(text, "reboot"),
        list: has_word(text, "list"),
        status: has_word(text, "status"),
    }
}

/// What a level is for.
pub(crate) fn read_target(
    alloc: Global,
    word: &[u8],
    text: &[u8],
) -> Result<LevelTarget, EntryFault>
    ensures { Gives result (Values.target_of word.now text.now) }
{
    let text = read_text(alloc, text)?;
    if word == b"name".as_slice() {
        Ok(LevelTarget::Name(text))
    } else {
        Ok(LevelTarget::Pattern(text))
    }
}

/// A limit of runs.
pub(crate) fn read_cap(text: &[u8]) -> Result<Option<u32>, EntryFault>
    ensures { result ≡ Values.cap_of text.now }
{
    if text == b"-1".as_slice() {
        return Ok(None);
    }
    Ok(Some(read_u32(text)?))
}

/// A priority.
pub(crate) fn read_priority(text: &[u8]) -> Result<i32, EntryFault>
    ensures { result ≡ Values.priority_of text.now }
{
    match text {
        [b'-', digits @ ..] => match read_number(digits, u64::from(GREATEST_PRIORITY)) {
            Some(n) => Ok(-(n as i32)),
            None => Err(EntryFault::Malformed),
        },
        _ => match read_number(text, u64::from(GREATEST_PRIORITY)) {
            Some(n) => Ok(n as i32),
            None => Err(EntryFault::Malformed),
        },
    }
}

/// A name and a value, cut at a byte.
pub(crate) fn read_pair(alloc: Global, part: &[u8], separator: u8) -> Result<Pair, EntryFault>
    ensures { Gives result (Values.pair_of separator part.now) }
{
    let name = read_text(alloc, front(part, separator))?;
    let value = read_text(alloc, after(part, separator))?;
    Ok(Pair { name, value })
}

/// A node and its delay.
pub(crate) fn read_delay(alloc: Global, part: &[u8]) -> Result<Delay, EntryFault>
    ensures { Gives result (Values.delay_of part.now) }
{
    let name = read_text(alloc, front(part, b':'))?;
    let ms = read_u64(after(part, b':'))?;
    Ok(Delay { name, ms })
}

/// What follows the first two bytes of a word.
fn unmarked(word: &[u8]) -> &[u8]
    ensures { result.now ≡ drop 2 word.now }
{
    match word {
        [_, _, rest @ ..] => rest,
        _ => &[],
    }
}

/// An option that is passed on to the agent.
pub(crate) fn read_own(alloc: Global, word: &[u8]) -> Result<Pair, EntryFault>
    ensures { Gives result (Values.own_of word.now) }
{
    read_pair(alloc, unmarked(word), b'=')
}

/// A parameter of an agent.
pub(crate) fn read_parameter(alloc: Global, word: &[u8]) -> Result<Parameter, EntryFault>
    ensures { Gives result (Values.parameter_of word.now) }
{
    let named = unmarked(word);
    Ok(Parameter {
        name: read_text(alloc, front(named, b'='))?,
        required: read_flag(after(named, b'=')),
    })
}

/// What an action is allowed.
pub(crate) fn read_allowed(alloc: Global, text: &[u8]) -> Result<Allowed, EntryFault>
    ensures { Gives result (Values.allowed_of text.now) }
{
    let word = read_text(alloc, front(text, b'/'))?;
    let numbers = after(text, b'/');
    let time = read_u64(front(numbers, b'/'))?;
    let tries = read_u8(after(numbers, b'/'))?;
    Ok(Allowed { word, time, tries })
}
