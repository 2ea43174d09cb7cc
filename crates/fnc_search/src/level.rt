// The levels that stand for a name or a pattern.

ghost use Rattle.std.specs.Prelude.{◌≡◌, ◌==◌, find, is_some, max};
ghost use Rattle.std.specs.Option.{option_copied};
ghost use Rattle.fnc_journal.specs.Same as Same;
ghost use Rattle.fnc_journal.specs.Levels as Levels;
ghost use Rattle.fnc_journal.specs.Missing as Missing;
ghost use Rattle.fnc_search.specs.Scoped as Scoped;
ghost use Rattle.fnc_search.specs.Indices.{level_step, oldest_with, top, top_here};

use crate::past::Past;
use crate::registered::least_of;
use fnc_journal::{Event, LevelTarget, Names, Scope};
use std::marker::Model;

/// What levels are for: a node's name or a pattern.
#[derive(Drop)]
pub struct Target<'a> {
    is_pattern: bool,
    text: &'a str,
}

impl<'a> Model for Target<'a> {
    ghost use Rattle.std.specs.Prelude.{if◌then◌else◌};
    ghost use Rattle.fnc_journal.specs.declared.entry.LevelTarget.{LevelTarget};

    ghost Value = { LevelTarget };

    ghost view = { λ t. if t.is_pattern then LevelTarget.Pattern t.text.now else LevelTarget.Name t.text.now };
}

impl<'a> Target<'a> {
    /// A node's name.
    pub fn name(text: &'a str) -> Target<'a>
        ensures { result ≡ LevelTarget.Name text.now }
    {
        Target {
            is_pattern: false,
            text,
        }
    }

    /// A pattern.
    pub fn pattern(text: &'a str) -> Target<'a>
        ensures { result ≡ LevelTarget.Pattern text.now }
    {
        Target {
            is_pattern: true,
            text,
        }
    }

    /// The target of an entry.
    pub fn of(target: &'a LevelTarget) -> Target<'a>
        ensures { result ≡ target.now }
    {
        match target {
            LevelTarget::Name(text) => Target::name(text.as_str()),
            LevelTarget::Pattern(text) => Target::pattern(text.as_str()),
        }
    }

    /// Whether this is the other target.
    pub fn is(&self, other: &LevelTarget) -> bool
        ensures { result ≡ Same.same_target self.now other.now }
    {
        match other {
            LevelTarget::Name(text) => !self.is_pattern && text.is(self.text),
            LevelTarget::Pattern(text) => self.is_pattern && text.is(self.text),
        }
    }
}

/// A level that stands: the number of its entry, its index, and the names of its devices.
#[derive(Drop)]
pub struct Level<'a> {
    at: u32,
    index: u32,
    devices: &'a Names,
}

impl<'a> Model for Level<'a> {
    ghost Value = { Levels.Level };

    ghost view = { λ l. record { at = l.at; index = l.index; devices = l.devices.now } };
}

impl<'a> Level<'a> {
    /// Its index.
    pub fn index(&self) -> u32
        ensures { result ≡ self.now.index }
    {
        self.index
    }

    /// The names of its devices.
    pub fn devices(&self) -> &'a Names
        ensures { result.now ≡ self.now.devices }
    {
        self.devices
    }
}

fn level_after<'a>(
    earlier: Option<Level<'a>>,
    at: u32,
    event: &'a Event,
    target: &Target<'_>,
    index: u32,
) -> Option<Level<'a>>
    ensures { result ≡ level_step target.now index at event.now earlier.entry }
{
    match event {
        Event::Level(set) => {
            if target.is(&set.target) && index == u32::from(set.index) {
                Some(Level {
                    at,
                    index,
                    devices: &set.devices,
                })
            } else {
                earlier
            }
        }
        Event::LevelGone(cleared) => {
            if target.is(&cleared.target) && index == u32::from(cleared.index) {
                None
            } else {
                earlier
            }
        }
        _ => earlier,
    }
}

/// The level of an index that stands for a target.
pub fn level_of<'a>(past: &Past<'a>, target: &Target<'_>, index: u32) -> Option<Level<'a>>
    ensures { result ≡ find (λ l. index == l.index) (Levels.levels target.now past.now) }
{
    let mut found = None;
    for i in 0..past.setup() {
        found = level_after(found, i, &past.entry(i).event, target, index);
    }
    found
}

fn top_here_of(event: &Event, target: &Target<'_>) -> u32
    ensures { result ≡ top_here target.now event.now }
{
    match event {
        Event::Level(set) => {
            if target.is(&set.target) {
                u32::from(set.index) + 1
            } else {
                0
            }
        }
        _ => 0,
    }
}

/// A number above the index of each level that stands for a target.
pub fn top_of(past: &Past<'_>, target: &Target<'_>) -> u32
    ensures { result ≡ top target.now past.now }
{
    let mut most = 0;
    for i in 0..past.setup() {
        most = top_here_of(&past.entry(i).event, target).max(most);
    }
    most
}

/// The oldest entry of the levels that stand for a target.
pub fn oldest(past: &Past<'_>, target: &Target<'_>) -> Option<u32>
    ensures { result ≡ Levels.oldest (Levels.levels target.now past.now) }
{
    let mut least = None;
    for index in 0..top_of(past, target) {
        least = with_oldest(least, level_of(past, target, index));
    }
    least
}

fn with_oldest(least: Option<u32>, level: Option<Level<'_>>) -> Option<u32>
    ensures { result ≡ oldest_with least level.entry }
{
    match level {
        Some(level) => least_of(least, Some(level.at)),
        None => least,
    }
}

/// Whether a level stands for a target.
pub fn stands(past: &Past<'_>, target: &Target<'_>) -> bool
    ensures { result ≡ Levels.stands target.now past.now }
{
    oldest(past, target).is_some()
}

fn pattern_of(event: &Event) -> Option<&str>
    ensures { option_copied result ≡ Levels.pattern_here event.now }
{
    match event {
        Event::Level(set) => match &set.target {
            LevelTarget::Name(_) => None,
            LevelTarget::Pattern(text) => Some(text.as_str()),
        },
        _ => None,
    }
}

/// The pattern of the level that is the entry of a number.
pub fn pattern_at<'a>(past: &Past<'a>, at: u32) -> Option<&'a str>
    ensures { option_copied result ≡ Levels.pattern_at at past.now }
{
    if at < past.len() {
        pattern_of(&past.entry(at).event)
    } else {
        None
    }
}

/// What the levels that a scope speaks of are for.
pub fn scoped_target<'a>(scope: Scope, target: &'a str, before: &Past<'a>) -> Option<Target<'a>>
    ensures { result ≡ Scoped.scoped_target scope target.now before.now }
{
    match scope {
        Scope::Nothing => None,
        Scope::Name => Some(Target::name(target)),
        Scope::Pattern(at) => {
            let text = pattern_at(before, at)?;
            Some(Target::pattern(text))
        }
    }
}
