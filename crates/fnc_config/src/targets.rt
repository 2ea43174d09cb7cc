// Targets whose levels stand: the nodes of the topology, or its patterns.

ghost use Rattle.std.specs.Prelude.{◌≡◌, ◌==◌, [], ◌∷◌, IfOk, OnOk, OnErr, bytes_eq, length, min, is_some, true, false};
ghost use Rattle.std.specs.List.{list_any};
ghost use Rattle.std.specs.Option.{option_copied};
ghost use Rattle.std.specs.Map.{lookup};
ghost use Rattle.fnc_journal.specs.Missing.{has_any};
ghost use Rattle.fnc_config.specs.Scopes.{scope_among, scope_by};
ghost use Rattle.fnc_config.specs.Configured.{count_levels, levels_of, with_level_of, without_level_of};

use crate::compiled::Compiled;
use crate::levels::{StandingLevel, StandingLevels};
use fnc_journal::{NoMemory, Scope};
use indexmap::IndexMap;
use std::alloc::Global;
use std::marker::Model;

/// Targets for which levels stand, each with its levels, in the order in which they began to stand.
#[derive(Drop)]
pub(crate) struct Targets {
    targets: IndexMap<String, StandingLevels>,
}

impl Model for Targets {
    ghost use Rattle.std.specs.Prelude.{map, string_bytes};
    ghost use Rattle.fnc_config.specs.Configured as Configured;

    ghost Value = { Configured.Targets };

    ghost view = { λ t. map (λ e. (string_bytes e.0, e.1)) t.targets.entries };
}

impl Targets {
    /// No targets.
    pub fn new(alloc: Global) -> Targets
        ensures { result ≡ [] }
    {
        Targets {
            targets: IndexMap::new(alloc),
        }
    }

    /// The levels of a target, where it stands.
    pub fn get(&self, text: &str) -> Option<&StandingLevels>
        ensures { option_copied result ≡ lookup (bytes_eq text.now) self.now }
    {
        self.targets.get(text)
    }

    /// Whether a level stands for a target.
    pub fn stands(&self, text: &str) -> bool
        ensures { result ≡ has_any (levels_of text.now self.now) }
    {
        match self.get(text) {
            Some(levels) => !levels.as_slice().is_empty(),
            None => false,
        }
    }

    /// The scope of a node, where these are patterns: that of the first which is found in it.
    pub fn first_found(
        &self,
        alloc: Global,
        compiled: &Compiled,
        node: &str,
    ) -> Result<Scope, NoMemory>
        ensures { IfOk result (λ scope. scope ≡ scope_among self.now node.now) }
    {
        for (text, levels) in self.targets.iter() {
            if compiled.is_found(alloc, text.as_str(), node)? {
                return Ok(scope_by(levels.oldest()));
            }
        }
        Ok(Scope::Nothing)
    }

    /// With a level of a target.
    pub fn put(&mut self, alloc: Global, text: &str, level: StandingLevel) -> Result<(), NoMemory>
        ensures ok { OnOk result (self.new ≡ with_level_of text.now level self.old) }
        ensures err { OnErr result (self.new ≡ self.old) }
    {
        if let Some(levels) = self.targets.get_mut(text) {
            levels.put(level)?;
            return Ok(());
        }
        let key = String::from_str(alloc, text)?;
        let mut levels = StandingLevels::new(alloc);
        levels.put(level)?;
        self.targets.insert(key, levels)?;
        Ok(())
    }

    /// Whether a level of an index stands for a target.
    pub fn has(&self, text: &str, index: u64) -> bool
        ensures { result ≡ list_any (λ l. index == l.index) (levels_of text.now self.now) }
    {
        match self.get(text) {
            Some(levels) => levels.has(index),
            None => false,
        }
    }

    /// How many levels stand: at most as many as are counted.
    pub fn count(&self) -> usize
        ensures { result ≡ min (count_levels self.now) 18446744073709551615 }
    {
        let mut count: usize = 0;
        for levels in self.targets.values() {
            count = count.saturating_add(levels.len());
        }
        count
    }

    /// Without the level of an index of a target, where there is one.
    pub fn clear(&mut self, text: &str, index: u64) -> bool
        ensures found { result ≡ list_any (λ l. index == l.index) (levels_of text.now self.old) }
        ensures cleared { result ≡ true → self.new ≡ without_level_of text.now index self.old }
        ensures unchanged { result ≡ false → self.new ≡ self.old }
    {
        let Some(levels) = self.targets.get_mut(text) else {
            return false;
        };
        if !levels.clear(index) {
            return false;
        }
        if levels.as_slice().is_empty() {
            self.targets.shift_remove(text);
        }
        true
    }
}

fn scope_by(oldest: Option<u32>) -> Scope
    ensures { result ≡ scope_by oldest }
{
    match oldest {
        Some(at) => Scope::Pattern(at),
        None => Scope::Nothing,
    }
}
