// Patterns of nodes, compiled.

use regex::Regex;
use std::marker::Model;

/// A pattern that is compiled. Contracts see its text.
#[derive(Drop)]
pub(crate) struct Pattern {
    regex: Regex,
}

impl Model for Pattern {
    ghost use Rattle.std.specs.Prelude.{ℕ, List};
    ghost use Rattle.regex.specs.Strings.{regex_source};
    ghost use Rattle.fnc_config.specs.Patterns.{IsCompiled};

    ghost Value = { List ℕ };

    ghost view = { λ p. regex_source p.regex };

    ghost invariant = { λ p. IsCompiled p.regex };
}

ghost use Rattle.std.specs.Prelude.{◌≡◌, IfOk};
ghost use Rattle.fnc_config.specs.Causes.{pattern_cause, Sets};
ghost use Rattle.fnc_config.specs.Patterns.{finds};

use crate::faults::LevelFault;
use fnc_journal::NoMemory;
use regex::Error;
use std::alloc::Global;

impl Pattern {
    /// The pattern of a text.
    pub fn new(alloc: Global, text: &str) -> Result<Pattern, LevelFault>
        ensures text { IfOk result (λ p. p ≡ text.now) }
        ensures cause { Sets result (pattern_cause text.now) }
    {
        match Regex::new(alloc, text) {
            Ok(regex) => Ok(Pattern { regex }),
            Err(Error::Syntax(_)) => Err(LevelFault::BadPattern),
            Err(_) => Err(LevelFault::NoMemory),
        }
    }

    /// Its text.
    pub fn as_str(&self) -> &str
        ensures { result.now ≡ self.now }
    {
        self.regex.as_str()
    }

    /// Whether it is found anywhere in a node's name.
    pub fn is_found(&self, alloc: Global, node: &str) -> Result<bool, NoMemory>
        ensures { IfOk result (λ found. found ≡ finds self.now node.now) }
    {
        let mut matcher = self.regex.matcher(alloc)?;
        Ok(matcher.is_match(node))
    }
}

/// Whether the pattern of a text is found anywhere in a node's name. A text that is no pattern is found nowhere.
pub(crate) fn is_found(alloc: Global, text: &str, node: &str) -> Result<bool, NoMemory>
    ensures { IfOk result (λ found. found ≡ finds text.now node.now) }
{
    match Pattern::new(alloc, text) {
        Ok(pattern) => pattern.is_found(alloc, node),
        Err(LevelFault::BadPattern) => Ok(false),
        Err(_) => Err(NoMemory),
    }
}
