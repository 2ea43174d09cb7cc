// What a request says.

ghost use Rattle.std.specs.Prelude.{◌≡◌, ◌≤◌, length, nat_le, IfOk, MatchResult, Ok, Err, Some};
ghost use Rattle.fnc_text.specs.Words.{words};
ghost use Rattle.fnc_command.specs.Answers.{Tells};
ghost use Rattle.fnc_command.specs.Asks.{asking, option_name, at_least_one, with_option, with_cut, with_words};
ghost use Rattle.fnc_command.specs.Asks.{no_options, said_ask, value_of};
ghost use Rattle.fnc_command.specs.Options.{cut_option};
ghost use Rattle.fnc_command.specs.declared.ask.OptionName.{OptionName};
ghost use Rattle.fnc_text.specs.Durations.{duration};

use crate::command::{Command, Mode};
use crate::field::{action, is_word, name};
use crate::option_word::cut_option;
use crate::spelling::{spell, spell_text};
use crate::word::{first_word, wanted_word};
use fnc_journal::Cause;
use fnc_journal::limits::DEFAULT_TOTAL;
use fnc_outside::LineBuf;
use fnc_text::{read_duration, read_number};
use std::alloc::Global;

/// The options that a request can have.
#[derive(Clone, Copy)]
pub enum OptionName {
    Total,
    Coin,
}

/// What the options of a request say.
#[derive(Clone, Copy)]
pub struct AskOptions {
    pub total: Option<u64>,
    pub coin: Option<u64>,
}

/// The words after `ask`. `options` is the rest of the line, with at most two words.
#[derive(Clone, Copy)]
struct Asking<'a> {
    client: &'a [u8],
    action: &'a [u8],
    target: &'a [u8],
    options: &'a [u8],
}

/// `ask CLIENT ACTION TARGET [total=DURATION] [coin=NUMBER]`
pub fn read_ask(alloc: Global, line: &[u8], mode: Mode, out: &mut LineBuf) -> Result<Command, Cause>
    requires { length line.now ≤ out.old.size }
    ensures read { Tells result (said_ask mode (words line.now)) }
    ensures size { out.new.size ≡ out.old.size }
{
    let asking = words_of_ask(line)?;
    let client = name(alloc, asking.client, out)?;
    let kind = action(asking.action, out)?;
    let target = name(alloc, asking.target, out)?;
    let options = read_options(asking.options, mode, out)?;
    Ok(Command::Ask {
        client,
        kind,
        target,
        total: options.total.unwrap_or(DEFAULT_TOTAL),
        coin: options.coin,
    })
}

fn words_of_ask(line: &[u8]) -> Result<Asking<'_>, Cause>
    ensures read { MatchResult result (λ a. asking (words line.now)
        ≡ Ok (record {
          client = a.client.now;
          action = a.action.now;
          target = a.target.now;
          options =
              words a.options.now;
        })) (λ cause. asking (words line.now) ≡ Err cause) }
    ensures client { IfOk result (λ a. length a.client.now ≤ length line.now) }
    ensures action { IfOk result (λ a. length a.action.now ≤ length line.now) }
    ensures target { IfOk result (λ a. length a.target.now ≤ length line.now) }
    ensures options { IfOk result (λ a. length a.options.now ≤ length line.now) }
{
    let client = wanted_word(line)?;
    let action = wanted_word(client.rest)?;
    let target = wanted_word(action.rest)?;
    if !has_at_most_two(target.rest) {
        return Err(Cause::ExtraWord);
    }
    Ok(Asking {
        client: client.word,
        action: action.word,
        target: target.word,
        options: target.rest,
    })
}

fn has_at_most_two(line: &[u8]) -> bool
    ensures { result ≡ nat_le (length (words line.now)) 2 }
{
    let Some(first) = first_word(line) else {
        return true;
    };
    let Some(second) = first_word(first.rest) else {
        return true;
    };
    first_word(second.rest).is_none()
}

fn read_options(line: &[u8], mode: Mode, out: &mut LineBuf) -> Result<AskOptions, Cause>
    requires { length line.now ≤ out.old.size }
    ensures read { result ≡ with_words mode no_options (words line.now) }
    ensures size { out.new.size ≡ out.old.size }
{
    let mut options = AskOptions {
        total: None,
        coin: None,
    };
    let mut rest = line;
    while let Some(cut) = first_word(rest) {
        options = with_word(options, cut.word, mode, out)?;
        rest = cut.rest;
    }
    Ok(options)
}

fn with_word(
    before: AskOptions,
    word: &[u8],
    mode: Mode,
    out: &mut LineBuf,
) -> Result<AskOptions, Cause>
    requires { length word.now ≤ out.old.size }
    ensures read { result ≡ with_cut mode before word.now (cut_option word.now) }
    ensures size { out.new.size ≡ out.old.size }
{
    let Some((name, value)) = cut_option(word) else {
        spell_text(word, out)?;
        return Err(Cause::BadWord);
    };
    spell_text(name, out)?;
    let name = option_name(out.bytes(), mode);
    spell_value(name, value, out)?;
    with_option(before, out.bytes(), name)
}

/// Puts the value of an option into a buffer: that of the coin is a number, any other is a text.
fn spell_value(name: Option<OptionName>, value: &[u8], out: &mut LineBuf) -> Result<(), Cause>
    requires { length value.now ≤ out.old.size }
    ensures read { MatchResult result (λ _. value_of name value.now ≡ Ok out.new.bytes) (λ cause.
        value_of name value.now ≡ Err cause) }
    ensures size { out.new.size ≡ out.old.size }
{
    match name {
        Some(OptionName::Coin) => spell(value, out),
        _ => spell_text(value, out),
    }
}

fn option_name(name: &[u8], mode: Mode) -> Option<OptionName>
    ensures { result ≡ option_name mode name.now }
{
    match mode {
        _ if is_word(name, "total") => Some(OptionName::Total),
        Mode::Timed if is_word(name, "coin") => Some(OptionName::Coin),
        _ => None,
    }
}

fn with_option(
    before: AskOptions,
    value: &[u8],
    name: Option<OptionName>,
) -> Result<AskOptions, Cause>
    ensures { result ≡ with_option before value.now name }
{
    match name {
        None => Err(Cause::BadWord),
        Some(OptionName::Total) => with_total(before, value),
        Some(OptionName::Coin) => with_coin(before, value),
    }
}

fn with_total(before: AskOptions, value: &[u8]) -> Result<AskOptions, Cause>
    ensures { result ≡ with_option before value.now (Some OptionName.Total) }
{
    let total = read_total(value).ok_or(Cause::BadTotal)?;
    match before.total {
        Some(_) => Err(Cause::BadWord),
        None => Ok(AskOptions {
            total: Some(total),
            coin: before.coin,
        }),
    }
}

fn with_coin(before: AskOptions, value: &[u8]) -> Result<AskOptions, Cause>
    ensures { result ≡ with_option before value.now (Some OptionName.Coin) }
{
    let coin = read_number(value, u64::MAX).ok_or(Cause::BadNumber)?;
    match before.coin {
        Some(_) => Err(Cause::BadWord),
        None => Ok(AskOptions {
            total: before.total,
            coin: Some(coin),
        }),
    }
}

/// A total: a duration of at least a millisecond.
fn read_total(value: &[u8]) -> Option<u64>
    ensures { result ≡ at_least_one (duration value.now) }
{
    match read_duration(value) {
        Ok(ms) if ms >= 1 => Some(ms),
        _ => None,
    }
}
