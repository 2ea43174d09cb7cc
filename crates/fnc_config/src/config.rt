// The configuration: which devices are registered, which levels stand, and which agents are described.

ghost use Rattle.std.specs.Prelude.{◌≡◌, ◌==◌, [], Some, None, IfOk, OnOk, OnErr, true, false};
ghost use Rattle.std.specs.Prelude.{map, option_map, unwrap_or, if◌then◌else◌};
ghost use Rattle.std.specs.List.{list_any};
ghost use Rattle.std.specs.Option.{option_copied};
ghost use Rattle.fnc_journal.specs.declared.entry.LevelTarget.{LevelTarget};
ghost use Rattle.fnc_journal.specs.declared.event.Event.{Event};
ghost use Rattle.fnc_journal.specs.declared.event.Described.{Described};
ghost use Rattle.fnc_journal.specs.declared.event.Registered.{Registered};
ghost use Rattle.fnc_journal.specs.History.{History};
ghost use Rattle.fnc_journal.specs.Known.{IsSmallLevel};
ghost use Rattle.fnc_journal.specs.Lawful.{Lawful};
ghost use Rattle.fnc_journal.specs.Levels.{has_level, is_in_place};
ghost use Rattle.fnc_journal.specs.Plan.{candidates_by};
ghost use Rattle.fnc_journal.specs.Registered.{current};
ghost use Rattle.fnc_config.specs.Configured as Configured;
ghost use Rattle.fnc_config.specs.Configured.{last_agent, levels_for, number_of};
ghost use Rattle.fnc_config.specs.Scopes.{IsScopeOf, scope_in};
ghost use Rattle.fnc_config.specs.Changes.{Enters, EntersAt, IsInOrderAfter, LeavesFewAfter};
ghost use Rattle.fnc_config.specs.Planning.{candidates_in, levels_at, plan_level_in, scoped_in};
ghost use Rattle.fnc_config.specs.Plans.{IsPlanOf};
ghost use Rattle.fnc_config.specs.Causes.{
  register_cause,
  agent_cause,
  level_cause,
  room_cause,
  Registers,
  Describes,
  Sets,
};

use crate::candidates::candidates;
use crate::compiled::Compiled;
use crate::faults::{AgentFault, LevelFault, NoLevel, NotRegistered, RegisterFault};
use crate::levels::{StandingLevel, StandingLevels};
use crate::numbers::Numbers;
use crate::pattern::Pattern;
use crate::planned::{pattern_at, planned_levels};
use crate::shape::{check_devices, copy_of, level_index, pattern_of};
use crate::targets::Targets;
use fnc_journal::limits::{MOST_AGENTS, MOST_DEVICES, MOST_LEVELS};
use fnc_journal::{
    Candidates, Journal, Kind, LevelTarget, Levels, Names, NoMemory, Plan, Reg, Scope, Text,
};
use std::alloc::Global;
use std::marker::Model;

/// What a journal's entries have configured: devices by their registrations, levels by their targets, and agents by the
/// indices of the entries that describe them. After an entry enters the journal its call is made here.
#[derive(Drop)]
pub struct Config {
    devices: Numbers,
    names: Targets,
    patterns: Targets,
    compiled: Compiled,
    agents: Numbers,
}

impl Model for Config {
    ghost use Rattle.fnc_config.specs.Configured as Configured;

    ghost Value = { Configured.Configured };

    ghost view = { λ c. record { devices = c.devices; names = c.names; patterns = c.patterns; agents = c.agents } };
}

impl Config {
    /// Nothing.
    pub fn new(alloc: Global) -> Config
        ensures { result ≡ Configured.unconfigured }
    {
        Config {
            devices: Numbers::new(alloc),
            names: Targets::new(alloc),
            patterns: Targets::new(alloc),
            compiled: Compiled::new(alloc),
            agents: Numbers::new(alloc),
        }
    }

    /// Registers a device under the number of its entry, after all that are registered.
    pub fn register(&mut self, alloc: Global, name: &Text, reg: Reg) -> Result<(), RegisterFault>
        ensures ok { OnOk result (self.new ≡ Configured.with_device name.now reg.0 self.old) }
        ensures err { OnErr result (self.new ≡ self.old) }
        ensures cause { Registers result (register_cause name.now self.old) }
        ensures enters { OnOk result ((device : Registered) → device.registration.name ≡ name.now →
            device.reg.0 ≡ reg.0 → Enters self.old self.new (Event.Device device)) }
        ensures few { OnOk result ((device : Registered) → device.registration.name ≡ name.now →
            LeavesFewAfter self.old (Event.Device device)) }
    {
        if self.devices.others(name.as_str()) >= MOST_DEVICES {
            return Err(RegisterFault::TooManyDevices);
        }
        self.devices.put_last(alloc, name.as_str(), reg.0)?;
        Ok(())
    }

    /// Takes a device out of the registry. It answers the registration that was current.
    pub fn remove(&mut self, name: &str) -> Result<Reg, NotRegistered>
        ensures gone { IfOk result (λ reg. number_of name.now self.old.devices ≡ Some reg.0) }
        ensures ok { OnOk result (self.new ≡ Configured.without_name name.now self.old) }
        ensures enters { IfOk result (λ reg. Enters self.old self.new (Event.Gone reg)) }
        ensures ordered { IfOk result (λ reg. IsInOrderAfter self.old (Event.Gone reg)) }
        ensures refused { OnErr result (number_of name.now self.old.devices ≡ None) }
        ensures err { OnErr result (self.new ≡ self.old) }
    {
        let Some(reg) = self.devices.remove(name) else {
            return Err(NotRegistered);
        };
        Ok(Reg(reg))
    }

    /// The current registration of a name.
    pub fn current(&self, name: &str) -> Option<Reg>
        ensures number { option_map (λ r. r.0) result ≡ number_of name.now self.now.devices }
        ensures current { (h : History) → Lawful h → self.now ≡ Configured.configured h →
            option_map (λ r. r.0) result ≡ current name.now h }
    {
        match self.devices.get(name) {
            Some(reg) => Some(Reg(reg)),
            None => None,
        }
    }

    /// Sets a level of a target, in place of that of its index: its devices by name. `at` is the index of its entry.
    pub fn set_level(
        &mut self,
        alloc: Global,
        target: &LevelTarget,
        index: u64,
        devices: &Names,
        at: u32,
    ) -> Result<(), LevelFault>
        ensures ok { OnOk result (self.new ≡ Configured.with_target_level target.now
            (record { at = at; index = index; devices = devices.now }) self.old) }
        ensures err { OnErr result (self.new ≡ self.old) }
        ensures cause { Sets result (level_cause target.now index devices.now self.old) }
        ensures enters { OnOk result (EntersAt at self.old self.new
            (Event.Level (record { target = target.now; index = index; devices = devices.now }))) }
        ensures small { OnOk result (IsSmallLevel index devices.now) }
    {
        let place = level_index(index)?;
        check_devices(devices.as_slice())?;
        let pattern = pattern_of(alloc, target)?;
        self.check_room(target, index)?;
        let level = StandingLevel {
            at,
            index: place,
            devices: copy_of(alloc, devices.as_slice())?,
        };
        self.keep(alloc, pattern)?;
        match target {
            LevelTarget::Name(text) => self.names.put(alloc, text.as_str(), level)?,
            LevelTarget::Pattern(text) => self.patterns.put(alloc, text.as_str(), level)?,
        }
        Ok(())
    }

    /// Keeps a pattern, if there is one, for the requests to come.
    fn keep(&mut self, alloc: Global, pattern: Option<Pattern>) -> Result<(), NoMemory>
        ensures { self.new ≡ self.old }
    {
        if let Some(pattern) = pattern {
            self.compiled.put(alloc, pattern)?;
        }
        Ok(())
    }

    /// Whether a level of an index stands for a target.
    pub fn has_level(&self, target: &LevelTarget, index: u64) -> bool
        ensures level { result ≡ list_any (λ l. index == l.index) (levels_for target.now self.now) }
        ensures stands { (h : History) → self.now ≡ Configured.configured h → result ≡ has_level target.now index h }
    {
        self.has(target, index)
    }

    fn has(&self, target: &LevelTarget, index: u64) -> bool
        ensures { result ≡ list_any (λ l. index == l.index) (levels_for target.now self.now) }
    {
        match target {
            LevelTarget::Name(text) => self.names.has(text.as_str(), index),
            LevelTarget::Pattern(text) => self.patterns.has(text.as_str(), index),
        }
    }

    /// One where a level of an index stands for a target, else none.
    fn count_of(&self, target: &LevelTarget, index: u64) -> usize
        ensures { result ≡ (if list_any (λ l. index == l.index) (levels_for target.now self.now) then 1 else 0) }
    {
        if self.has(target, index) { 1 } else { 0 }
    }

    fn check_room(&self, target: &LevelTarget, index: u64) -> Result<(), LevelFault>
        ensures { Sets result (room_cause target.now index self.now) }
    {
        let all = self.names.count().saturating_add(self.patterns.count());
        let own = self.count_of(target, index);
        if all.saturating_sub(own) >= MOST_LEVELS {
            return Err(LevelFault::TooManyLevels);
        }
        Ok(())
    }

    /// Clears a level of a target.
    pub fn clear_level(&mut self, target: &LevelTarget, index: u64) -> Result<(), NoLevel>
        ensures ok { OnOk result (self.new ≡ Configured.without_target_level target.now index self.old) }
        ensures enters { OnOk result (Enters self.old self.new
            (Event.LevelGone (record { target = target.now; index = index }))) }
        ensures ordered { OnOk result (IsInOrderAfter self.old
            (Event.LevelGone (record { target = target.now; index = index }))) }
        ensures stood { (h : History) → self.old ≡ Configured.configured h →
            OnOk result (has_level target.now index h ≡ true) }
        ensures refused { (h : History) → self.old ≡ Configured.configured h →
            OnErr result (has_level target.now index h ≡ false) }
        ensures err { OnErr result (self.new ≡ self.old) }
    {
        if self.clear(target, index) {
            Ok(())
        } else {
            Err(NoLevel)
        }
    }

    fn clear(&mut self, target: &LevelTarget, index: u64) -> bool
        ensures found { result ≡ list_any (λ l. index == l.index) (levels_for target.now self.old) }
        ensures cleared { result ≡ true → self.new ≡ Configured.without_target_level target.now index self.old }
        ensures unchanged { result ≡ false → self.new ≡ self.old }
    {
        match target {
            LevelTarget::Name(text) => self.names.clear(text.as_str(), index),
            LevelTarget::Pattern(text) => self.clear_pattern(text.as_str(), index),
        }
    }

    fn clear_pattern(&mut self, text: &str, index: u64) -> bool
        ensures found { result ≡ list_any (λ l. index == l.index) (levels_for (LevelTarget.Pattern text.now) self.old) }
        ensures cleared { result ≡ true → self.new
            ≡ Configured.without_target_level (LevelTarget.Pattern text.now) index self.old }
        ensures unchanged { result ≡ false → self.new ≡ self.old }
    {
        let cleared = self.patterns.clear(text, index);
        self.forget(text);
        cleared
    }

    /// Forgets a pattern that stands no longer.
    fn forget(&mut self, text: &str)
        ensures { self.new ≡ self.old }
    {
        if !self.patterns.stands(text) {
            self.compiled.remove(text);
        }
    }

    /// The scope of a request for a node: the levels of its name, or of the pattern that has stood longest among those
    /// that are found in it.
    pub fn scope_of(&self, alloc: Global, target: &str) -> Result<Scope, NoMemory>
        ensures scope { IfOk result (λ scope. scope ≡ scope_in self.now target.now) }
        ensures of { IfOk result (λ scope. (h : History) → self.now ≡ Configured.configured h →
            IsScopeOf h target.now scope) }
    {
        if self.names.stands(target) {
            return Ok(Scope::Name);
        }
        let scope = self.patterns.first_found(alloc, &self.compiled, target)?;
        Ok(scope)
    }

    /// The levels that a scope speaks of.
    fn scoped(&self, journal: &Journal, scope: Scope, target: &str) -> Option<&StandingLevels>
        ensures { unwrap_or (option_copied result) [] ≡ scoped_in scope target.now journal.now.history self.now }
    {
        match scope {
            Scope::Nothing => None,
            Scope::Name => self.names.get(target),
            Scope::Pattern(at) => self.levels_at(pattern_at(journal, at)),
        }
    }

    /// The levels of a pattern that may be missing.
    fn levels_at(&self, pattern: Option<&Text>) -> Option<&StandingLevels>
        ensures { unwrap_or (option_copied result) [] ≡ levels_at (option_copied pattern.entry) self.now }
    {
        match pattern {
            Some(text) => self.patterns.get(text.as_str()),
            None => None,
        }
    }

    /// The levels of a plan.
    fn levels_in(
        &self,
        alloc: Global,
        journal: &Journal,
        scope: Scope,
        target: &str,
    ) -> Result<Levels, NoMemory>
        ensures { IfOk result (λ ls. ls ≡ map (plan_level_in self.now.devices)
            (scoped_in scope target.now journal.now.history self.now)) }
    {
        match self.scoped(journal, scope, target) {
            Some(levels) => planned_levels(alloc, &self.devices, levels.as_slice()),
            None => Ok(Levels::new(alloc)),
        }
    }

    /// The candidates of a plan.
    fn candidates_in(
        &self,
        alloc: Global,
        journal: &Journal,
        scope: Scope,
        target: &str,
        kind: Kind,
        moment: u64,
    ) -> Result<Candidates, NoMemory>
        requires lawful { Lawful journal.now.history }
        ensures { IfOk result (λ cs. cs ≡ candidates_by scope (candidates_in
            (record { kind = kind; target = target.now; begin = moment; scope = Scope.Nothing })
            journal.now.history self.now.devices)) }
    {
        match scope {
            Scope::Nothing => candidates(alloc, journal, &self.devices, target, kind, moment),
            _ => Ok(Candidates::new(alloc)),
        }
    }

    /// The plan of a request for an action on a node at a moment: the levels of its scope, or the candidates where no
    /// level stands for it. The configuration is that of the journal's entries.
    pub fn plan(
        &self,
        alloc: Global,
        journal: &Journal,
        target: &str,
        kind: Kind,
        moment: u64,
    ) -> Result<Plan, NoMemory>
        requires lawful { Lawful journal.now.history }
        requires configured { self.now ≡ Configured.configured journal.now.history }
        ensures plan { IfOk result (IsPlanOf journal.now.history target.now kind moment) }
        ensures in_place { IfOk result (λ p. is_in_place p.scope target.now journal.now.history ≡ true) }
    {
        let scope = self.scope_of(alloc, target)?;
        let levels = self.levels_in(alloc, journal, scope, target)?;
        let candidates = self.candidates_in(alloc, journal, scope, target, kind, moment)?;
        Ok(Plan {
            scope,
            levels,
            candidates,
        })
    }

    /// Describes an agent by the index of its entry.
    pub fn set_agent(&mut self, alloc: Global, name: &Text, at: u32) -> Result<(), AgentFault>
        ensures ok { OnOk result (self.new ≡ Configured.with_agent name.now at self.old) }
        ensures err { OnErr result (self.new ≡ self.old) }
        ensures cause { Describes result (agent_cause name.now self.old) }
        ensures enters { OnOk result ((described : Described) → described.name ≡ name.now →
            EntersAt at self.old self.new (Event.Agent described)) }
    {
        if self.agents.others(name.as_str()) >= MOST_AGENTS {
            return Err(AgentFault::TooManyAgents);
        }
        self.agents.put(alloc, name.as_str(), at)?;
        Ok(())
    }

    /// The index of the entry that last described an agent.
    pub fn agent(&self, name: &str) -> Option<u32>
        ensures number { result ≡ number_of name.now self.now.agents }
        ensures last { (h : History) → self.now ≡ Configured.configured h → result ≡ last_agent name.now h }
    {
        self.agents.get(name)
    }
}
