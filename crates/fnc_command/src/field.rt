// What one word says. What a word spells is put into a buffer, so that only texts that are kept take
// memory.

ghost use Rattle.std.specs.Prelude.{◌≡◌, ◌≤◌, bytes_eq, length, Ok, IfOk, MatchResult};
ghost use Rattle.std.specs.Str.{is_utf8};
ghost use Rattle.fnc_command.specs.Answers.{Tells};
ghost use Rattle.fnc_command.specs.Fields.{passing, text_of, name_of, agent_of, number_of, action_of, exit_of};
ghost use Rattle.fnc_command.specs.Fields.{has_equals, action, exit, named_exit};

use crate::spelling::spell;
use fnc_journal::{Bytes, Cause, Exit, Kind, Text};
use fnc_outside::LineBuf;
use fnc_text::{is_name, read_number};
use std::alloc::Global;
use std::str::from_utf8;

/// The text that a word spells.
pub fn text(alloc: Global, word: &[u8], out: &mut LineBuf) -> Result<Text, Cause>
    requires { length word.now ≤ out.old.size }
    ensures read { Tells result (text_of word.now) }
    ensures size { out.new.size ≡ out.old.size }
{
    spell(word, out)?;
    copy(alloc, out.bytes())
}

/// A copy of bytes that have to be a text.
fn copy(alloc: Global, bytes: &[u8]) -> Result<Text, Cause>
    ensures { Tells result (passing Cause.BadEscape (is_utf8 bytes.now) bytes.now) }
{
    match from_utf8(bytes) {
        Ok(text) => copy_text(alloc, text),
        Err(_) => Err(Cause::BadEscape),
    }
}

fn copy_text(alloc: Global, text: &str) -> Result<Text, Cause>
    ensures { Tells result (Ok text.now) }
{
    match Text::new(alloc, text) {
        Ok(text) => Ok(text),
        Err(_) => Err(Cause::NoMemory),
    }
}

/// The name that a word spells.
pub fn name(alloc: Global, word: &[u8], out: &mut LineBuf) -> Result<Text, Cause>
    requires { length word.now ≤ out.old.size }
    ensures read { Tells result (name_of word.now) }
    ensures size { out.new.size ≡ out.old.size }
{
    let text = text(alloc, word, out)?;
    if is_name(text.as_str()) {
        Ok(text)
    } else {
        Err(Cause::BadName)
    }
}

/// The name of an agent that a word spells.
pub fn agent_name(alloc: Global, word: &[u8], out: &mut LineBuf) -> Result<Text, Cause>
    requires { length word.now ≤ out.old.size }
    ensures read { Tells result (agent_of word.now) }
    ensures size { out.new.size ≡ out.old.size }
{
    let text = text(alloc, word, out)?;
    if is_name(text.as_str()) && !has_equals(text.as_str().as_bytes()) {
        Ok(text)
    } else {
        Err(Cause::BadName)
    }
}

/// Whether bytes have an equals sign.
pub fn has_equals(bytes: &[u8]) -> bool
    ensures { result ≡ has_equals bytes.now }
{
    bytes.contains(&b'=')
}

/// The number up to `most` that a word spells.
pub fn number(word: &[u8], most: u64, out: &mut LineBuf) -> Result<u64, Cause>
    requires { length word.now ≤ out.old.size }
    ensures read { result ≡ number_of most word.now }
    ensures size { out.new.size ≡ out.old.size }
    ensures within { IfOk result (λ n. n ≤ most) }
{
    spell(word, out)?;
    read_number(out.bytes(), most).ok_or(Cause::BadNumber)
}

/// The action that a word spells, of those that can be asked for.
pub fn action(word: &[u8], out: &mut LineBuf) -> Result<Kind, Cause>
    requires { length word.now ≤ out.old.size }
    ensures read { result ≡ action_of word.now }
    ensures size { out.new.size ≡ out.old.size }
{
    spell(word, out)?;
    named_action(out.bytes()).ok_or(Cause::BadAction)
}

fn named_action(bytes: &[u8]) -> Option<Kind>
    ensures { result ≡ action bytes.now }
{
    if is_word(bytes, "on") {
        Some(Kind::On)
    } else if is_word(bytes, "off") {
        Some(Kind::Off)
    } else if is_word(bytes, "reboot") {
        Some(Kind::Reboot)
    } else {
        None
    }
}

/// The exit that a word spells.
pub fn exit(word: &[u8], out: &mut LineBuf) -> Result<Exit, Cause>
    requires { length word.now ≤ out.old.size }
    ensures read { result ≡ exit_of word.now }
    ensures size { out.new.size ≡ out.old.size }
{
    spell(word, out)?;
    exit_word(out.bytes()).ok_or(Cause::BadExit)
}

fn exit_word(bytes: &[u8]) -> Option<Exit>
    ensures { result ≡ exit bytes.now }
{
    if let Some(exit) = named_exit(bytes) {
        return Some(exit);
    }
    let code = read_number(bytes, 255)?;
    Some(Exit::Code(code as u8))
}

fn named_exit(bytes: &[u8]) -> Option<Exit>
    ensures { result ≡ named_exit bytes.now }
{
    if is_word(bytes, "signal") {
        Some(Exit::Signal)
    } else if is_word(bytes, "no-start") {
        Some(Exit::NoStart)
    } else if is_word(bytes, "too-long") {
        Some(Exit::TooLong)
    } else if is_word(bytes, "no-memory") {
        Some(Exit::NoMemory)
    } else {
        None
    }
}

/// Whether bytes are this word.
pub fn is_word(bytes: &[u8], word: &str) -> bool
    ensures { result ≡ bytes_eq bytes.now word.now }
{
    bytes == word.as_bytes()
}

/// A copy of bytes.
pub fn copy_bytes(alloc: Global, bytes: &[u8]) -> Result<Bytes, Cause>
    ensures { MatchResult result (λ b. b ≡ bytes.now) (λ cause. cause ≡ Cause.NoMemory) }
{
    match Bytes::new(alloc, bytes) {
        Ok(bytes) => Ok(bytes),
        Err(_) => Err(Cause::NoMemory),
    }
}
