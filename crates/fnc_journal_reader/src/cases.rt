// The cases that words stand for: what `words` prints, read back.

ghost use Rattle.std.specs.Prelude.{◌≡◌, bytes_eq, find};
ghost use Rattle.std.specs.Option.{option_copied};
ghost use Rattle.fnc_journal.specs.Causes.{word_of};
ghost use Rattle.fnc_journal.specs.Line.{kind_word};
ghost use Rattle.fnc_journal_text.specs.Spelled.{check_word, phase_word};
ghost use Rattle.fnc_journal_reader.specs.Values as Values;

use crate::cuts::after;
use crate::fault::EntryFault;
use crate::values::{read_u8, read_u32};
use fnc_journal::{Answer, Cause, Exit, HostCheck, Kind, Phase, Scope};
use fnc_journal_text::{check_word, phase_word};

const KINDS: [Kind; 5] = [Kind::On, Kind::Off, Kind::Reboot, Kind::List, Kind::Status];

const PHASES: [Phase; 4] = [Phase::Query, Phase::Act, Phase::Off, Phase::On];

const CHECKS: [HostCheck; 4] = [
    HostCheck::DynamicList,
    HostCheck::StaticList,
    HostCheck::Status,
    HostCheck::Nothing,
];

/// The causes for which a line is refused.
const CAUSES: [Cause; 42] = [
    Cause::TooLong,
    Cause::NotUtf8,
    Cause::Empty,
    Cause::BadMoment,
    Cause::MissingWord,
    Cause::UnknownVerb,
    Cause::ExtraWord,
    Cause::BadEscape,
    Cause::BadName,
    Cause::BadNumber,
    Cause::BadAction,
    Cause::BadExit,
    Cause::BadTotal,
    Cause::BadWord,
    Cause::PastMoment,
    Cause::NotRegistered,
    Cause::NoLevel,
    Cause::BadIndex,
    Cause::TooManyPlaces,
    Cause::RepeatedDevice,
    Cause::BadPattern,
    Cause::TooManyLevels,
    Cause::BadDescription,
    Cause::NotObject,
    Cause::BadField,
    Cause::NoOff,
    Cause::TooManyAgents,
    Cause::TooManyOptions,
    Cause::BadOption,
    Cause::RepeatedOption,
    Cause::BadHostList,
    Cause::BadHostMap,
    Cause::BadHostCheck,
    Cause::BadDuration,
    Cause::BadLimit,
    Cause::BadPriority,
    Cause::BadRetries,
    Cause::MissingParameter,
    Cause::TooManyDevices,
    Cause::UnknownRun,
    Cause::Full,
    Cause::NoMemory,
];

fn find_kind<'a>(kinds: &'a [Kind], word: &[u8]) -> Option<&'a Kind>
    ensures { option_copied result ≡ find (λ x. bytes_eq word.now (kind_word x)) kinds.now }
{
    kinds.iter().find(|x| word == x.word().as_bytes())
}

/// An action by its word.
pub(crate) fn read_kind(word: &[u8]) -> Result<Kind, EntryFault>
    ensures { result ≡ Values.kind_of word.now }
{
    match find_kind(&KINDS, word) {
        Some(kind) => Ok(*kind),
        None => Err(EntryFault::Malformed),
    }
}

fn find_phase<'a>(phases: &'a [Phase], word: &[u8]) -> Option<&'a Phase>
    ensures { option_copied result ≡ find (λ x. bytes_eq word.now (phase_word x)) phases.now }
{
    phases.iter().find(|x| word == phase_word(**x).as_bytes())
}

/// A phase by its word.
pub(crate) fn read_phase(word: &[u8]) -> Result<Phase, EntryFault>
    ensures { result ≡ Values.phase_of word.now }
{
    match find_phase(&PHASES, word) {
        Some(phase) => Ok(*phase),
        None => Err(EntryFault::Malformed),
    }
}

fn find_check<'a>(checks: &'a [HostCheck], word: &[u8]) -> Option<&'a HostCheck>
    ensures { option_copied result ≡ find (λ x. bytes_eq word.now (check_word x)) checks.now }
{
    checks.iter().find(|x| word == check_word(**x).as_bytes())
}

/// A host check by its word.
pub(crate) fn read_check(word: &[u8]) -> Result<HostCheck, EntryFault>
    ensures { result ≡ Values.check_of word.now }
{
    match find_check(&CHECKS, word) {
        Some(check) => Ok(*check),
        None => Err(EntryFault::Malformed),
    }
}

fn find_cause<'a>(causes: &'a [Cause], word: &[u8]) -> Option<&'a Cause>
    ensures { option_copied result ≡ find (λ x. bytes_eq word.now (word_of x)) causes.now }
{
    causes.iter().find(|x| word == x.word().as_bytes())
}

/// A cause by its word.
pub(crate) fn read_cause(word: &[u8]) -> Result<Cause, EntryFault>
    ensures { result ≡ Values.cause_of word.now }
{
    match find_cause(&CAUSES, word) {
        Some(cause) => Ok(*cause),
        None => Err(EntryFault::Malformed),
    }
}

/// How a run ended.
pub(crate) fn read_exit(word: &[u8]) -> Result<Exit, EntryFault>
    ensures { result ≡ Values.exit_of word.now }
{
    if word == b"signal".as_slice() {
        return Ok(Exit::Signal);
    }
    if word == b"no-start".as_slice() {
        return Ok(Exit::NoStart);
    }
    if word == b"too-long".as_slice() {
        return Ok(Exit::TooLong);
    }
    if word == b"no-memory".as_slice() {
        return Ok(Exit::NoMemory);
    }
    Ok(Exit::Code(read_u8(word)?))
}

/// Which levels a request takes.
pub(crate) fn read_scope(word: &[u8]) -> Result<Scope, EntryFault>
    ensures { result ≡ Values.scope_of word.now }
{
    if word == b"none".as_slice() {
        return Ok(Scope::Nothing);
    }
    if word == b"name".as_slice() {
        return Ok(Scope::Name);
    }
    Ok(Scope::Pattern(read_u32(after(word, b':'))?))
}

/// What a request is answered, in two words.
pub(crate) fn read_answer(first: &[u8], second: &[u8]) -> Result<Answer, EntryFault>
    ensures { result ≡ Values.answer_of first.now second.now }
{
    if first == b"ok".as_slice() {
        read_success(second)
    } else {
        read_failure(second)
    }
}

fn read_success(word: &[u8]) -> Result<Answer, EntryFault>
    ensures { result ≡ Values.success_of word.now }
{
    if word == b"confirmed".as_slice() {
        return Ok(Answer::Confirmed);
    }
    Ok(Answer::Passed(read_u8(word)?))
}

fn read_failure(word: &[u8]) -> Result<Answer, EntryFault>
    ensures { result ≡ Values.failure_of word.now }
{
    if word == b"levels".as_slice() {
        Ok(Answer::Levels)
    } else if word == b"time".as_slice() {
        Ok(Answer::Time)
    } else if word == b"none".as_slice() {
        Ok(Answer::NoDevice)
    } else {
        Err(EntryFault::Malformed)
    }
}
