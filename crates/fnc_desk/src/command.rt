// What a command calls for is done, at the last moment.

ghost use Rattle.std.specs.Prelude.{◌≡◌, ◌≤◌, ◌↔◌, true, IsOk, OnOk, OnErr, IfOk, IfErr};
ghost use Rattle.std.specs.Prelude.{IfSome, IsTrue, option_copied, unwrap_or};
ghost use Rattle.fnc_journal.specs.EntryBounds.{is_described};
ghost use Rattle.fnc_journal.specs.Lawful.{in_order, may_ask};
ghost use Rattle.fnc_core.specs.Between.{IsBoundedEvent};
ghost use Rattle.fnc_core.specs.Cored.{Advances, Enters, HasRoom, Sound, event_of};
ghost use Rattle.fnc_journal.specs.Known.{LeavesFewNames};
ghost use Rattle.fnc_journal.specs.Names.{is_name};
ghost use Rattle.fnc_command.specs.declared.command.Command.{Command};
ghost use Rattle.fnc_command.specs.declared.command.Mode.{Mode};
ghost use Rattle.fnc_command.specs.Proper.{IsProperCommand, IsProperTarget};
ghost use Rattle.fnc_agent_api.specs.Descriptions.{plain};
ghost use Rattle.fnc_journal.specs.Startable.{is_alive};
ghost use Rattle.fnc_device.specs.Definitions.{define};
ghost use Rattle.fnc_journal.specs.Bounds.{IsBounded};
ghost use Rattle.fnc_journal.specs.Found.{started};
ghost use Rattle.fnc_desk.specs.Agents.{agent_of, description_of};
ghost use Rattle.fnc_desk.specs.Called.{AsksFor, CallsFor, exit_called, exit_event, is_listed};
ghost use Rattle.fnc_desk.specs.Obeyed.{Obeys, Denies, Refuses, Defines};

use crate::denial::Denial;
use crate::fencer::Fencer;
use crate::output::target_of;
use fnc_agent_api::{lists, plain_description, read_description};
use fnc_command::Command;
use fnc_core::{Ask, Change, Core, UnknownRun};
use fnc_device::define;
use fnc_journal::limits::{DAY, GREATEST_MOMENT};
use fnc_journal::{
    Boxed, Bytes, Confirmation, Definition, Described, Description, Event, Exit, Kind,
    LevelCleared, LevelSet, LevelTarget, Names, NoMemory, Pairs, Registration, Run, Start, Text,
};
use std::alloc::Global;

/// The agent of a device whose line names none.
const PLAIN_AGENT: &str = "fence_model";

/// Something changes at the last moment, where there is room for its entry.
fn note(core: &mut Core, change: Change)
    requires room { HasRoom core.old 1 }
    requires ordered { in_order (event_of core.old.history change) core.old.history ≡ true }
    requires bounded { IsBoundedEvent (event_of core.old.history change) }
    requires few_names { LeavesFewNames core.old.last (event_of core.old.history change) core.old.history }
    ensures { Enters core.old core.new core.old.last (event_of core.old.history change) 1 }
{
    let moment = core.last();
    let _entered = core.note(moment, change);
}

/// The agent of a device: the one that is named, or the plain one.
fn named_agent(alloc: Global, agent: Option<Text>) -> Result<Text, NoMemory>
    ensures { IfOk result (λ name. name ≡ agent_of agent) }
{
    match agent {
        Some(name) => Ok(name),
        None => Text::new(alloc, PLAIN_AGENT),
    }
}

impl Fencer {
    /// The last description of an agent, where there is one.
    fn described(&self, agent: &str) -> Option<&Description>
        ensures value { unwrap_or (option_copied result) plain
            ≡ description_of agent.now self.now.history }
        ensures bounded { IfSome result (λ d. IsTrue (is_described d.now)) }
    {
        let at = self.config.agent(agent)?;
        match &self.core.journal().entry(at).event {
            Event::Agent(described) => Some(described.description.get()),
            _ => None,
        }
    }

    /// What the options of a device define.
    fn defined(&self, agent: &Text, options: &Pairs) -> Result<Definition, Denial>
        ensures value { Defines result (define options.now (description_of agent.now self.now.history)) }
        ensures bounded { IfOk result IsBounded }
    {
        match self.described(agent.as_str()) {
            Some(description) => Ok(define(self.alloc, options, description)?),
            None => {
                let description = plain_description(self.alloc)?;
                Ok(define(self.alloc, options, &description)?)
            }
        }
    }

    /// `device`: a new registration of the name.
    fn register(&mut self, name: Text, agent: Option<Text>, options: Pairs) -> Result<(), Denial>
        requires sound { Sound self.old }
        requires room { HasRoom self.old 1 }
        requires proper { IsProperCommand Mode.Timed (Command.Device name agent options) }
        ensures ok { OnOk result (Obeys (CallsFor self.old 0 (Command.Device name agent options)) self.old self.new) }
        ensures err { IfErr result (Denies (CallsFor self.old 0 (Command.Device name agent options)) self.old self.new) }
    {
        let agent = named_agent(self.alloc, agent)?;
        let definition = self.defined(&agent, &options)?;
        let registration = Boxed::new(
            self.alloc,
            Registration {
                name,
                agent,
                definition,
            },
        )?;
        let reg = self.core.next_reg();
        self.config
            .register(self.alloc, &registration.get().name, reg)?;
        note(&mut self.core, Change::Device(registration));
        Ok(())
    }

    /// `remove`: the name is no longer registered.
    fn remove(&mut self, name: Text) -> Result<(), Denial>
        requires sound { Sound self.old }
        requires room { HasRoom self.old 1 }
        ensures ok { OnOk result (Obeys (CallsFor self.old 0 (Command.Remove name)) self.old self.new) }
        ensures err { IfErr result (Denies (CallsFor self.old 0 (Command.Remove name)) self.old self.new) }
    {
        let reg = self.config.remove(name.as_str())?;
        note(&mut self.core, Change::Gone(reg));
        Ok(())
    }

    /// `level`: a level of the target stands.
    fn set_level(&mut self, target: LevelTarget, index: u64, devices: Names) -> Result<(), Denial>
        requires sound { Sound self.old }
        requires room { HasRoom self.old 1 }
        requires proper { IsProperCommand Mode.Timed (Command.Level target index devices) }
        ensures ok { OnOk result (Obeys (CallsFor self.old 0 (Command.Level target index devices)) self.old self.new) }
        ensures err { IfErr result (Denies (CallsFor self.old 0 (Command.Level target index devices)) self.old self.new) }
    {
        let at = self.core.journal().len();
        self.config
            .set_level(self.alloc, &target, index, &devices, at)?;
        let level = LevelSet {
            target,
            index: index as u8,
            devices,
        };
        note(&mut self.core, Change::Level(level));
        Ok(())
    }

    /// `unlevel`: a level of the target no longer stands.
    fn clear_level(&mut self, target: LevelTarget, index: u64) -> Result<(), Denial>
        requires sound { Sound self.old }
        requires room { HasRoom self.old 1 }
        requires proper { IsProperTarget target }
        ensures ok { OnOk result (Obeys (CallsFor self.old 0 (Command.Unlevel target index)) self.old self.new) }
        ensures err { IfErr result (Denies (CallsFor self.old 0 (Command.Unlevel target index)) self.old self.new) }
    {
        self.config.clear_level(&target, index)?;
        let level = LevelCleared {
            target,
            index: index as u8,
        };
        note(&mut self.core, Change::LevelGone(level));
        Ok(())
    }

    /// `agent`: what an agent can do.
    fn describe(&mut self, name: Text, json: Bytes) -> Result<(), Denial>
        requires sound { Sound self.old }
        requires room { HasRoom self.old 1 }
        requires proper { IsProperCommand Mode.Timed (Command.Agent name json) }
        ensures ok { OnOk result (Obeys (CallsFor self.old 0 (Command.Agent name json)) self.old self.new) }
        ensures err { IfErr result (Denies (CallsFor self.old 0 (Command.Agent name json)) self.old self.new) }
    {
        let description = Boxed::new(self.alloc, read_description(self.alloc, json.as_slice())?)?;
        let at = self.core.journal().len();
        self.config.set_agent(self.alloc, &name, at)?;
        let described = Described { name, description };
        note(&mut self.core, Change::Agent(described));
        Ok(())
    }

    /// `ask`: a request joins the operation that it can join, or begins its own by the plan of this moment.
    fn ask(&mut self, ask: Ask) -> Result<(), Denial>
        requires sound { Sound self.old }
        requires named { IsTrue (is_name ask.client) }
        requires aimed { IsTrue (is_name ask.target) }
        requires kind { may_ask ask.kind ≡ true }
        requires some_time { 1 ≤ ask.total }
        requires most_time { ask.total ≤ DAY }
        ensures ok { OnOk result (Obeys (AsksFor self.old ask) self.old self.new) }
        ensures err { IfErr result (Denies (AsksFor self.old ask) self.old self.new) }
    {
        let moment = self.core.last();
        let plan = self.config.plan(
            self.alloc,
            self.core.journal(),
            ask.target.as_str(),
            ask.kind,
            moment,
        )?;
        self.core.ask(self.alloc, moment, ask, plan)?;
        Ok(())
    }

    /// `pass`: only time passes.
    fn pass(&mut self)
        requires room { HasRoom self.old 1 }
        ensures { Obeys (CallsFor self.old 0 Command.Pass) self.old self.new }
    {
        let moment = self.core.last();
        let _entered = self.core.pass(moment);
    }

    /// `confirm`: an operator says that the target is down.
    fn confirm(&mut self, client: Text, target: Text)
        requires sound { Sound self.old }
        requires room { HasRoom self.old 1 }
        requires proper { IsProperCommand Mode.Timed (Command.Confirm client target) }
        ensures { Obeys (CallsFor self.old 0 (Command.Confirm client target)) self.old self.new }
    {
        note(
            &mut self.core,
            Change::Confirm(Confirmation { client, target }),
        );
    }

    /// Whether the output of a run lists the target of its operation: a `list` can.
    fn is_listed(&self, run: Run, output: &[u8]) -> bool
        ensures { result ≡ is_listed (started run.0 self.now.history) output.now self.now.history }
    {
        let journal = self.core.journal();
        match journal.start_of(run) {
            Some(start) => start.kind.is(Kind::List)
                && lists(output, target_of(journal, start.req)),
            None => false,
        }
    }

    /// A run has ended at a moment. It is refused exactly where the run is not alive.
    pub fn finish(
        &mut self,
        moment: u64,
        run: Run,
        exit: Exit,
        output: &[u8],
    ) -> Result<(), UnknownRun>
        requires later { self.old.last ≤ moment }
        requires early { moment ≤ GREATEST_MOMENT }
        ensures ok { OnOk result (Enters self.old self.new moment
            (exit_event run exit output.now self.old.history) 0) }
        ensures alive { IsOk result ↔ (is_alive run.0 self.old.history ≡ true) }
        ensures err { OnErr result (Advances self.old self.new moment) }
    {
        let listed = self.is_listed(run, output);
        self.core.exit(moment, run, exit, listed)
    }

    /// `exit`: a run has ended.
    pub fn end(&mut self, run: Run, exit: Exit, output: &[u8]) -> Result<(), Denial>
        ensures ok { OnOk result
            (Obeys (λ called. called ≡ exit_called run exit output.now self.old.history) self.old self.new) }
        ensures err { IfErr result
            (Refuses (λ called. called ≡ exit_called run exit output.now self.old.history) self.old self.new) }
    {
        let moment = self.core.last();
        self.finish(moment, run, exit, output)?;
        Ok(())
    }

    /// Does what a command other than `exit` calls for. Where it is refused, nothing has changed.
    pub fn obey(&mut self, command: Command, coin: u64) -> Result<(), Denial>
        requires sound { Sound self.old }
        requires room { HasRoom self.old 1 }
        requires proper { IsProperCommand Mode.Timed command }
        ensures ok { OnOk result (Obeys (CallsFor self.old coin command) self.old self.new) }
        ensures err { IfErr result (Denies (CallsFor self.old coin command) self.old self.new) }
    {
        match command {
            Command::Device {
                name,
                agent,
                options,
            } => self.register(name, agent, options),
            Command::Remove { name } => self.remove(name),
            Command::Level {
                target,
                index,
                devices,
            } => self.set_level(target, index, devices),
            Command::Unlevel { target, index } => self.clear_level(target, index),
            Command::Agent { name, json } => self.describe(name, json),
            Command::Ask {
                client,
                kind,
                target,
                total,
                coin: own,
            } => self.ask(Ask {
                client,
                kind,
                target,
                total,
                coin: own.unwrap_or(coin),
            }),
            Command::Exit { run, exit, output } => self.end(run, exit, output.as_slice()),
            Command::Pass => {
                self.pass();
                Ok(())
            }
            Command::Confirm { client, target } => {
                self.confirm(client, target);
                Ok(())
            }
        }
    }
}
