// Option words: a name, an equals sign and a value.

ghost use Rattle.std.specs.Prelude.{◌≡◌, ◌==◌, ◌+◌, ◌<◌, ◌≤◌, ◌++◌, [], ◌∷◌, length, IfSome, MatchOption, MatchResult};
ghost use Rattle.std.specs.Prelude.{None, Some};
ghost use Rattle.std.specs.List.{position};
ghost use Rattle.fnc_text.specs.Words.{words};
ghost use Rattle.fnc_command.specs.Answers.{Tells};
ghost use Rattle.fnc_command.specs.Options.{cut_option, pair_of, pairs_of};

use crate::field::text;
use crate::word::first_word;
use fnc_journal::{Cause, NoMemory, Pair, Pairs};
use fnc_outside::LineBuf;
use std::alloc::Global;

/// An option word cut at its first equals sign. None where it has none.
pub fn cut_option(word: &[u8]) -> Option<(&[u8], &[u8])>
    ensures cut { MatchOption result (cut_option word.now ≡ None) (λ cut. cut_option word.now
        ≡ Some (cut.0.now, cut.1.now)) }
    ensures within { IfSome result (λ cut. length cut.0.now + length cut.1.now ≤ length word.now) }
{
    let at = equals_at(word)?;
    Some((&word[..at], &word[at + 1..]))
}

/// Where the first equals sign of a word stands.
fn equals_at(word: &[u8]) -> Option<usize>
    ensures place { result ≡ position (λ b. b == 61) word.now }
    ensures within { IfSome result (λ at. at < length word.now) }
{
    word.iter().position(|byte| *byte == b'=')
}

/// The options that the words of a line spell.
pub fn read_pairs(alloc: Global, line: &[u8], out: &mut LineBuf) -> Result<Pairs, Cause>
    requires { length line.now ≤ out.old.size }
    ensures read { Tells result (pairs_of (words line.now)) }
    ensures size { out.new.size ≡ out.old.size }
{
    let mut pairs = Pairs::new(alloc);
    let mut rest = line;
    while let Some(cut) = first_word(rest) {
        let pair = read_pair(alloc, cut.word, out)?;
        add(&mut pairs, pair)?;
        rest = cut.rest;
    }
    Ok(pairs)
}

fn read_pair(alloc: Global, word: &[u8], out: &mut LineBuf) -> Result<Pair, Cause>
    requires { length word.now ≤ out.old.size }
    ensures read { Tells result (pair_of word.now) }
    ensures size { out.new.size ≡ out.old.size }
{
    let Some((name, value)) = cut_option(word) else {
        text(alloc, word, out)?;
        return Err(Cause::BadWord);
    };
    Ok(Pair {
        name: text(alloc, name, out)?,
        value: text(alloc, value, out)?,
    })
}

fn add(pairs: &mut Pairs, pair: Pair) -> Result<(), Cause>
    ensures { MatchResult result (λ _. pairs.new ≡ pairs.old ++ pair ∷ []) (λ cause. cause ≡ Cause.NoMemory) }
{
    match pairs.push(pair) {
        Ok(()) => Ok(()),
        Err(NoMemory) => Err(Cause::NoMemory),
    }
}
