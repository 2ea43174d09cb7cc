// The patterns whose levels stand, compiled once.

use crate::pattern::Pattern;
use indexmap::IndexMap;
use std::marker::Model;

/// Patterns by their texts. Contracts see each text twice: as it is looked for, and as it was compiled.
#[derive(Drop)]
pub(crate) struct Compiled {
    patterns: IndexMap<String, Pattern>,
}

impl Model for Compiled {
    ghost use Rattle.std.specs.Prelude.{ℕ, List, map, string_bytes};
    ghost use Rattle.fnc_config.specs.Patterns.{AreByText};

    ghost Value = { List (List ℕ × List ℕ) };

    ghost view = { λ c. map (λ e. (string_bytes e.0, e.1)) c.patterns.entries };

    ghost invariant = { λ c. AreByText (map (λ e. (string_bytes e.0, e.1)) c.patterns.entries) };
}

ghost use Rattle.std.specs.Prelude.{◌≡◌, [], bytes_eq, IfOk, OnOk, OnErr};
ghost use Rattle.std.specs.Map.{remove_entry};
ghost use Rattle.indexmap.specs.IndexMap.{insert_entry};
ghost use Rattle.fnc_config.specs.Patterns.{finds};

use crate::pattern::is_found;
use fnc_journal::NoMemory;
use std::alloc::Global;

impl Compiled {
    /// No patterns.
    pub fn new(alloc: Global) -> Compiled
        ensures { result ≡ [] }
    {
        Compiled {
            patterns: IndexMap::new(alloc),
        }
    }

    /// With one more.
    pub fn put(&mut self, alloc: Global, pattern: Pattern) -> Result<(), NoMemory>
        ensures ok { OnOk result (self.new ≡ insert_entry bytes_eq self.old pattern pattern) }
        ensures err { OnErr result (self.new ≡ self.old) }
    {
        let key = String::from_str(alloc, pattern.as_str())?;
        self.patterns.insert(key, pattern)?;
        Ok(())
    }

    /// Without that of a text.
    pub fn remove(&mut self, text: &str)
        ensures { self.new ≡ remove_entry (bytes_eq text.now) self.old }
    {
        self.patterns.shift_remove(text);
    }

    /// Whether the pattern of a text is found in a node's name. It is compiled here where that was not done before.
    pub fn is_found(&self, alloc: Global, text: &str, node: &str) -> Result<bool, NoMemory>
        ensures { IfOk result (λ found. found ≡ finds text.now node.now) }
    {
        match self.patterns.get(text) {
            Some(pattern) => pattern.is_found(alloc, node),
            None => is_found(alloc, text, node),
        }
    }
}
