// What stands in a journal.

ghost use Rattle.std.specs.Prelude.{◌≡◌};
ghost use Rattle.fnc_journal.specs.Device as Device;
ghost use Rattle.fnc_journal.specs.Exits as Exits;
ghost use Rattle.fnc_journal.specs.Lawful as Lawful;
ghost use Rattle.fnc_journal.specs.Line as Line;
ghost use Rattle.fnc_journal.specs.Same as Same;

use crate::event::Event;
use crate::text::Text;

/// The number of a registration, from 0.
#[derive(Clone, Copy, Debug, PartialEq, Eq)]
pub struct Reg(pub u32);

/// The number of a request, from 0.
#[derive(Clone, Copy, Debug, PartialEq, Eq)]
pub struct Req(pub u32);

/// The number of a run of an agent, from 0.
#[derive(Clone, Copy, Debug, PartialEq, Eq)]
pub struct Run(pub u32);

/// What is asked of an agent.
#[derive(Clone, Copy, Debug, PartialEq, Eq)]
pub enum Kind {
    On,
    Off,
    Reboot,
    List,
    Status,
}

/// The part that a slot has in an operation.
#[derive(Clone, Copy, Debug, PartialEq, Eq)]
pub enum Phase {
    Query,
    Act,
    Off,
    On,
}

/// A slot of an operation: its phase, its level (0 for a query), and the place of its device from 0.
#[derive(Clone, Copy, Debug, PartialEq, Eq)]
pub struct Slot {
    pub phase: Phase,
    pub level: u8,
    pub place: u8,
}

impl Kind {
    /// The word for it, in what is read and in what is printed.
    pub fn word(self) -> &'static str
        ensures { result.now ≡ Line.kind_word self }
    {
        match self {
            Kind::On => "on",
            Kind::Off => "off",
            Kind::Reboot => "reboot",
            Kind::List => "list",
            Kind::Status => "status",
        }
    }

    /// Whether this is the other kind.
    pub fn is(self, other: Kind) -> bool
        ensures { result ≡ Same.same_kind self other }
    {
        match (self, other) {
            (Kind::On, Kind::On)
            | (Kind::Off, Kind::Off)
            | (Kind::Reboot, Kind::Reboot)
            | (Kind::List, Kind::List)
            | (Kind::Status, Kind::Status) => true,
            _ => false,
        }
    }

    /// Whether it cuts a node's power: then it has a delay, and an operator's word can stand for it.
    pub fn cuts_power(self) -> bool
        ensures { result ≡ Device.cuts_power self }
    {
        match self {
            Kind::Off | Kind::Reboot => true,
            _ => false,
        }
    }

    /// Whether a client may ask for it. The other kinds are queries, which the fencer makes by itself.
    pub fn may_be_asked(self) -> bool
        ensures { result ≡ Lawful.may_ask self }
    {
        match self {
            Kind::On | Kind::Off | Kind::Reboot => true,
            _ => false,
        }
    }
}

impl Phase {
    /// Whether this is the other phase.
    pub fn is(self, other: Phase) -> bool
        ensures { result ≡ Same.same_phase self other }
    {
        match (self, other) {
            (Phase::Query, Phase::Query) => true,
            (Phase::Act, Phase::Act) => true,
            (Phase::Off, Phase::Off) => true,
            (Phase::On, Phase::On) => true,
            _ => false,
        }
    }
}

impl Slot {
    /// Whether this is the other slot.
    pub fn is(self, other: Slot) -> bool
        ensures { result ≡ Same.same_slot self other }
    {
        self.phase.is(other.phase) && self.level == other.level && self.place == other.place
    }
}

/// How a run ended.
#[derive(Clone, Copy, Debug, PartialEq, Eq)]
pub enum Exit {
    Code(u8),
    Signal,
    NoStart,
    TooLong,
    NoMemory,
}

impl Exit {
    /// Whether it is a success of a run of this kind, by the exit statuses of the Fence Agent API.
    pub fn is_success_of(self, kind: Kind) -> bool
        ensures { result ≡ Exits.is_success kind self }
    {
        match (kind, self) {
            (Kind::Status, Exit::Code(code)) => code == 0 || code == 2,
            (_, Exit::Code(code)) => code == 0,
            _ => false,
        }
    }
}

/// What a request is answered.
#[derive(Clone, Copy, Debug, PartialEq, Eq)]
pub enum Answer {
    Passed(u8),
    Levels,
    Time,
    NoDevice,
    Confirmed,
}

impl Answer {
    /// Whether this is the other answer.
    pub fn is(self, other: Answer) -> bool
        ensures { result ≡ Same.same_answer self other }
    {
        match (self, other) {
            (Answer::Passed(level), Answer::Passed(other)) => level == other,
            (Answer::Levels, Answer::Levels)
            | (Answer::Time, Answer::Time)
            | (Answer::NoDevice, Answer::NoDevice)
            | (Answer::Confirmed, Answer::Confirmed) => true,
            _ => false,
        }
    }
}

/// What a level of the topology is for: one node, or all that a pattern matches.
#[derive(Debug, Drop)]
pub enum LevelTarget {
    Name(Text),
    Pattern(Text),
}

impl LevelTarget {
    /// Whether this is the other target.
    pub fn is(&self, other: &LevelTarget) -> bool
        ensures { result ≡ Same.same_target self.now other.now }
    {
        match (self, other) {
            (LevelTarget::Name(name), LevelTarget::Name(other)) => other.is(name.as_str()),
            (LevelTarget::Pattern(pattern), LevelTarget::Pattern(other)) => {
                other.is(pattern.as_str())
            }
            _ => false,
        }
    }
}

/// Which levels a request takes: none, those of the name, or those of the pattern whose oldest entry has this index.
#[derive(Clone, Copy, Debug, PartialEq, Eq)]
pub enum Scope {
    Nothing,
    Name,
    Pattern(u32),
}

/// An entry of the journal.
#[derive(Debug, Drop)]
pub struct Entry {
    pub moment: u64,
    pub event: Event,
}
