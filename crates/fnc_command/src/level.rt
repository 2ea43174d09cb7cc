// What the lines of the topology say.

ghost use Rattle.std.specs.Prelude.{◌≡◌, ◌≤◌, length, IfOk, IsTrue, Ok};
ghost use Rattle.std.specs.List.{list_all};
ghost use Rattle.fnc_journal.specs.Names.{is_name};
ghost use Rattle.fnc_text.specs.Words.{words};
ghost use Rattle.fnc_command.specs.Answers.{Tells};
ghost use Rattle.fnc_command.specs.Levels.{is_marked, pattern_of, target_of, comma_parts, devices_of, said_level};
ghost use Rattle.fnc_command.specs.Levels.{said_unlevel};

use crate::command::Command;
use crate::field::{name, number, text};
use crate::word::{three_words, two_words};
use fnc_journal::limits::LONGEST_NAME;
use fnc_journal::{Cause, LevelTarget, Names, NoMemory, Text};
use fnc_outside::LineBuf;
use fnc_text::is_name;
use std::alloc::Global;

/// `level INDEX TARGET DEVICES`
pub fn read_level(alloc: Global, line: &[u8], out: &mut LineBuf) -> Result<Command, Cause>
    requires { length line.now ≤ out.old.size }
    ensures read { Tells result (said_level (words line.now)) }
    ensures size { out.new.size ≡ out.old.size }
{
    let (index, target, devices) = three_words(line)?;
    let index = number(index, u64::MAX, out)?;
    Ok(Command::Level {
        target: read_target(alloc, target, out)?,
        index,
        devices: read_devices(alloc, devices, out)?,
    })
}

/// `unlevel INDEX TARGET`
pub fn read_unlevel(alloc: Global, line: &[u8], out: &mut LineBuf) -> Result<Command, Cause>
    requires { length line.now ≤ out.old.size }
    ensures read { Tells result (said_unlevel (words line.now)) }
    ensures size { out.new.size ≡ out.old.size }
{
    let (index, target) = two_words(line)?;
    let index = number(index, u64::MAX, out)?;
    Ok(Command::Unlevel {
        target: read_target(alloc, target, out)?,
        index,
    })
}

/// The target that a word spells: a pattern where the word begins with `~`, else a name.
fn read_target(alloc: Global, word: &[u8], out: &mut LineBuf) -> Result<LevelTarget, Cause>
    requires { length word.now ≤ out.old.size }
    ensures read { Tells result (target_of word.now) }
    ensures size { out.new.size ≡ out.old.size }
{
    if is_marked(word) {
        read_pattern(alloc, &word[1..], out)
    } else {
        Ok(LevelTarget::Name(name(alloc, word, out)?))
    }
}

fn is_marked(word: &[u8]) -> bool
    ensures mark { result ≡ is_marked word.now }
    ensures there { IsTrue result → 1 ≤ length word.now }
{
    matches!(word, [b'~', ..])
}

fn read_pattern(alloc: Global, word: &[u8], out: &mut LineBuf) -> Result<LevelTarget, Cause>
    requires { length word.now ≤ out.old.size }
    ensures read { Tells result (pattern_of word.now) }
    ensures size { out.new.size ≡ out.old.size }
{
    let pattern = text(alloc, word, out)?;
    let length = pattern.as_str().len();
    if 1 <= length && length <= LONGEST_NAME {
        Ok(LevelTarget::Pattern(pattern))
    } else {
        Err(Cause::BadName)
    }
}

/// The devices that a word spells: names, separated by commas.
fn read_devices(alloc: Global, word: &[u8], out: &mut LineBuf) -> Result<Names, Cause>
    requires { length word.now ≤ out.old.size }
    ensures read { Tells result (devices_of word.now) }
    ensures size { out.new.size ≡ out.old.size }
{
    let text = text(alloc, word, out)?;
    let names = comma_parts(alloc, text.as_str())?;
    if are_names(names.as_slice()) {
        Ok(names)
    } else {
        Err(Cause::BadName)
    }
}

fn are_names(parts: &[Text]) -> bool
    ensures { result ≡ list_all is_name parts.now }
{
    parts.iter().all(|part| is_name(part.as_str()))
}

fn comma_parts(alloc: Global, text: &str) -> Result<Names, Cause>
    ensures { Tells result (Ok (comma_parts text.now)) }
{
    match split(alloc, text) {
        Ok(parts) => Ok(parts),
        Err(NoMemory) => Err(Cause::NoMemory),
    }
}

fn split(alloc: Global, text: &str) -> Result<Names, NoMemory>
    ensures { IfOk result (λ parts. parts ≡ comma_parts text.now) }
{
    let mut parts = Names::new(alloc);
    for part in text.split(',') {
        parts.push(Text::new(alloc, part)?)?;
    }
    Ok(parts)
}
