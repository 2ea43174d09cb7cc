// Names with numbers, in the order in which they came in.

ghost use Rattle.std.specs.Prelude.{◌≡◌, [], length, map, IfOk, OnOk, OnErr};
ghost use Rattle.std.specs.Map.{values_of};
ghost use Rattle.fnc_config.specs.Configured.{number_of, with_last, with_number, without};

use fnc_journal::NoMemory;
use indexmap::IndexMap;
use std::alloc::Global;
use std::marker::Model;

/// Names, each with a number, in the order in which they came in.
#[derive(Drop)]
pub(crate) struct Numbers {
    numbers: IndexMap<String, u32>,
}

impl Model for Numbers {
    ghost use Rattle.std.specs.Prelude.{map, string_bytes};
    ghost use Rattle.std.specs.Map.{values_of};
    ghost use Rattle.fnc_config.specs.Configured.{Numbered};

    ghost Value = { Numbered };

    ghost view = { λ n. map (λ e. (string_bytes e.0, e.1)) n.numbers.entries };
}

impl Numbers {
    /// No names.
    pub fn new(alloc: Global) -> Numbers
        ensures { result ≡ [] }
    {
        Numbers {
            numbers: IndexMap::new(alloc),
        }
    }

    /// How many other names.
    pub fn others(&self, name: &str) -> usize
        ensures { result ≡ length (without name.now self.now) }
    {
        if self.numbers.contains_key(name) {
            self.numbers.len() - 1
        } else {
            self.numbers.len()
        }
    }

    /// The number of a name.
    pub fn get(&self, name: &str) -> Option<u32>
        ensures { result ≡ number_of name.now self.now }
    {
        self.numbers.get(name).copied()
    }

    /// The numbers in order.
    pub fn numbers(&self, alloc: Global) -> Result<Vec<u32>, NoMemory>
        ensures { IfOk result (λ v. v.items ≡ map (λ e. e.1) self.now) }
    {
        let numbers = values(alloc, &self.numbers)?;
        Ok(numbers)
    }

    /// Without a name. It answers the number that the name had.
    pub fn remove(&mut self, name: &str) -> Option<u32>
        ensures number { result ≡ number_of name.now self.old }
        ensures rest { self.new ≡ without name.now self.old }
    {
        self.numbers.shift_remove(name)
    }

    /// With a name at the end.
    pub fn put_last(&mut self, alloc: Global, name: &str, number: u32) -> Result<(), NoMemory>
        ensures ok { OnOk result (self.new ≡ with_last name.now number self.old) }
        ensures err { OnErr result (self.new ≡ self.old) }
    {
        let key = String::from_str(alloc, name)?;
        self.numbers.reserve(1)?;
        self.numbers.shift_remove(name);
        self.numbers.insert(key, number)?;
        Ok(())
    }

    /// With a name in its place, or at the end where it is new.
    pub fn put(&mut self, alloc: Global, name: &str, number: u32) -> Result<(), NoMemory>
        ensures ok { OnOk result (self.new ≡ with_number name.now number self.old) }
        ensures err { OnErr result (self.new ≡ self.old) }
    {
        let key = String::from_str(alloc, name)?;
        self.numbers.insert(key, number)?;
        Ok(())
    }
}

fn values(alloc: Global, numbers: &IndexMap<String, u32>) -> Result<Vec<u32>, NoMemory>
    ensures { IfOk result (λ v. v.items ≡ values_of numbers.now.entries) }
{
    Ok(numbers.values().copied().collect(alloc)?)
}
