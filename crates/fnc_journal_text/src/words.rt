// The words that stand for cases.

ghost use Rattle.std.specs.Prelude.{◌≡◌, ◌&&◌, ◌||◌, [], if◌then◌else◌, codes};
ghost use Rattle.fnc_printing.specs.Printed.{piece_text, pieces_text};
ghost use Rattle.fnc_journal_text.specs.Spelled as Spelled;

use fnc_journal::{Actions, Answer, Exit, HostCheck, LevelTarget, Phase, Scope, Text};
use fnc_printing::Piece;

/// The word of yes or no.
pub(crate) fn flag_word(flag: bool) -> &'static str
    ensures { result.now ≡ Spelled.flag_text flag }
{
    if flag { "1" } else { "0" }
}

/// The word of a phase.
pub fn phase_word(phase: Phase) -> &'static str
    ensures { result.now ≡ Spelled.phase_word phase }
{
    match phase {
        Phase::Query => "query",
        Phase::Act => "act",
        Phase::Off => "off",
        Phase::On => "on",
    }
}

/// The word of a host check.
pub fn check_word(check: HostCheck) -> &'static str
    ensures { result.now ≡ Spelled.check_word check }
{
    match check {
        HostCheck::DynamicList => "dynamic-list",
        HostCheck::StaticList => "static-list",
        HostCheck::Status => "status",
        HostCheck::Nothing => "none",
    }
}

/// The word of an exit.
pub(crate) fn exit_piece(exit: Exit) -> Piece<'static>
    ensures { piece_text result ≡ Spelled.exit_word exit }
{
    match exit {
        Exit::Code(code) => Piece::Number(u64::from(code)),
        Exit::Signal => Piece::Word("signal"),
        Exit::NoStart => Piece::Word("no-start"),
        Exit::TooLong => Piece::Word("too-long"),
        Exit::NoMemory => Piece::Word("no-memory"),
    }
}

/// The second word of an answer, after `ok` or `failed`: the level that passed, `confirmed`, or why it failed.
pub fn answer_piece(answer: Answer) -> Piece<'static>
    ensures { piece_text result ≡ Spelled.answer_text answer }
{
    match answer {
        Answer::Passed(level) => Piece::Number(u64::from(level)),
        Answer::Confirmed => Piece::Word("confirmed"),
        Answer::Levels => Piece::Word("levels"),
        Answer::Time => Piece::Word("time"),
        Answer::NoDevice => Piece::Word("none"),
    }
}

/// The first word of an answer: `ok` or `failed`.
pub fn answer_word(answer: Answer) -> &'static str
    ensures { result.now ≡ Spelled.answer_word answer }
{
    match answer {
        Answer::Passed(_) | Answer::Confirmed => "ok",
        Answer::Levels | Answer::Time | Answer::NoDevice => "failed",
    }
}

/// The word that says whether a level is for a name or for a pattern.
pub(crate) fn target_word(target: &LevelTarget) -> &'static str
    ensures { result.now ≡ Spelled.target_word target.now }
{
    match target {
        LevelTarget::Name(_) => "name",
        LevelTarget::Pattern(_) => "pattern",
    }
}

/// The name or the pattern that a level is for.
pub(crate) fn target_text(target: &LevelTarget) -> &str
    ensures { result.now ≡ Spelled.target_text target.now }
{
    match target {
        LevelTarget::Name(text) | LevelTarget::Pattern(text) => text.as_str(),
    }
}

/// Which levels a request takes.
pub(crate) fn scope_pieces(scope: Scope) -> [Piece<'static>; 2]
    ensures { pieces_text result ≡ Spelled.scope_word scope }
{
    match scope {
        Scope::Nothing => [Piece::Word("none"), Piece::Word("")],
        Scope::Name => [Piece::Word("name"), Piece::Word("")],
        Scope::Pattern(index) => [Piece::Word("pattern:"), Piece::Number(u64::from(index))],
    }
}

/// A text that need not be there.
pub(crate) fn text_piece(text: &Option<Text>) -> Piece<'_>
    ensures { piece_text result ≡ Spelled.text_or_none text.now }
{
    match text {
        Some(text) => Piece::Name(text.as_str()),
        None => Piece::Word(""),
    }
}

/// A limit of runs.
pub(crate) fn cap_piece(cap: Option<u32>) -> Piece<'static>
    ensures { piece_text result ≡ Spelled.cap_text cap }
{
    match cap {
        Some(limit) => Piece::Number(u64::from(limit)),
        None => Piece::Word("-1"),
    }
}

/// A word where it holds.
fn word(has: bool, word: &'static str) -> Piece<'static>
    ensures { piece_text result ≡ (if has then word.now else []) }
{
    Piece::Word(if has { word } else { "" })
}

/// A comma between what stands before it and what follows.
fn comma(before: bool, after: bool) -> Piece<'static>
    ensures { piece_text result ≡ (if before && after then codes "," else []) }
{
    word(before && after, ",")
}

fn either(first: bool, second: bool) -> bool
    ensures { result ≡ (first || second) }
{
    first || second
}

/// The actions that there are, with a comma between each two.
pub(crate) fn actions_pieces(actions: Actions) -> [Piece<'static>; 9]
    ensures { pieces_text result ≡ Spelled.actions_text actions }
{
    let two = either(actions.on, actions.off);
    let three = either(two, actions.reboot);
    let four = either(three, actions.list);
    [
        word(actions.on, "on"),
        comma(actions.on, actions.off),
        word(actions.off, "off"),
        comma(two, actions.reboot),
        word(actions.reboot, "reboot"),
        comma(three, actions.list),
        word(actions.list, "list"),
        comma(four, actions.status),
        word(actions.status, "status"),
    ]
}
