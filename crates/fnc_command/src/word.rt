// Words cut off the front of a line.

ghost use Rattle.std.specs.Prelude.{◌≡◌, ◌+◌, ◌≤◌, [], length, IfOk, MatchResult};
ghost use Rattle.fnc_text.specs.Words.{words};
ghost use Rattle.fnc_command.specs.Cuts.{CutsWord, none, one, two, three};

use fnc_journal::Cause;
use fnc_text::next_word;

/// The first word of a line, and what follows it.
#[derive(Clone, Copy)]
pub struct Cut<'a> {
    pub word: &'a [u8],
    pub rest: &'a [u8],
}

/// The first word of a line.
pub fn first_word(line: &[u8]) -> Option<Cut<'_>>
    ensures { CutsWord line.now result }
{
    let span = next_word(line, 0)?;
    Some(Cut {
        word: &line[span.start..span.end],
        rest: &line[span.end..],
    })
}

/// The first word of a line that is to have one.
pub fn wanted_word(line: &[u8]) -> Result<Cut<'_>, Cause>
    ensures { MatchResult result (λ cut. CutsWord line.now (Some cut)) (λ cause.
        (words line.now ≡ []) × (cause ≡ Cause.MissingWord)) }
{
    match first_word(line) {
        Some(cut) => Ok(cut),
        None => Err(Cause::MissingWord),
    }
}

/// Wants no word.
pub fn no_word(line: &[u8]) -> Result<(), Cause>
    ensures { result ≡ none (words line.now) }
{
    match first_word(line) {
        Some(_) => Err(Cause::ExtraWord),
        None => Ok(()),
    }
}

/// The word of a line that is to have one.
pub fn one_word(line: &[u8]) -> Result<&[u8], Cause>
    ensures read { MatchResult result (λ w. one (words line.now) ≡ Ok w.now) (λ cause.
        one (words line.now) ≡ Err cause) }
    ensures within { IfOk result (λ w. length w.now ≤ length line.now) }
{
    let cut = wanted_word(line)?;
    no_word(cut.rest)?;
    Ok(cut.word)
}

/// The words of a line that is to have two.
pub fn two_words(line: &[u8]) -> Result<(&[u8], &[u8]), Cause>
    ensures read { MatchResult result (λ w. two (words line.now) ≡ Ok (w.0.now, w.1.now)) (λ cause.
        two (words line.now) ≡ Err cause) }
    ensures within { IfOk result (λ w. length w.0.now + length w.1.now ≤ length line.now) }
{
    let first = wanted_word(line)?;
    let second = wanted_word(first.rest)?;
    no_word(second.rest)?;
    Ok((first.word, second.word))
}

/// The words of a line that is to have three.
pub fn three_words(line: &[u8]) -> Result<(&[u8], &[u8], &[u8]), Cause>
    ensures read { MatchResult result (λ w. three (words line.now) ≡ Ok (w.0.now, w.1.now, w.2.now)) (λ cause.
        three (words line.now) ≡ Err cause) }
    ensures within { IfOk result (λ w. length w.0.now + length w.1.now + length w.2.now ≤ length line.now) }
{
    let first = wanted_word(line)?;
    let (second, third) = two_words(first.rest)?;
    Ok((first.word, second, third))
}
