// What a device is registered with, and what describes an agent.

ghost use Rattle.std.specs.Prelude.{◌≡◌, ◌<◌, ◌^◌};
ghost use Rattle.fnc_journal.specs.Device as Device;
ghost use Rattle.fnc_journal.specs.Plan as Plan;
ghost use Rattle.fnc_journal.specs.Slots as Slots;

use crate::entry::Kind;
use crate::names::{Names, Pairs, find_pair, has_name, has_pair};
use crate::sequence::Sequence;
use crate::text::Text;

/// How a device is asked whether it can fence a node.
#[derive(Clone, Copy, Debug, PartialEq, Eq)]
pub enum HostCheck {
    DynamicList,
    StaticList,
    Status,
    Nothing,
}

impl HostCheck {
    /// Whether it leaves a node out, which the device names or does not name: a static list leaves out
    /// what it does not name.
    pub fn excludes(self, is_named: bool) -> bool
        ensures { result ≡ Plan.excludes self is_named }
    {
        match self {
            HostCheck::StaticList => !is_named,
            _ => false,
        }
    }

    /// The query that says whether the device can fence a node. None where none is made.
    pub fn query(self) -> Option<Kind>
        ensures { result ≡ Plan.asked_by self }
    {
        match self {
            HostCheck::DynamicList => Some(Kind::List),
            HostCheck::Status => Some(Kind::Status),
            _ => None,
        }
    }
}

/// The actions that an agent has.
#[derive(Clone, Copy, Debug, PartialEq, Eq)]
pub struct Actions {
    pub on: bool,
    pub off: bool,
    pub reboot: bool,
    pub list: bool,
    pub status: bool,
}

/// What an action is allowed: the word that the agent is sent, its time in milliseconds, and its tries.
#[derive(Debug, Drop)]
pub struct Allowed {
    pub word: Text,
    pub time: u64,
    pub tries: u8,
}

/// The base of the delay for one node, in milliseconds.
#[derive(Debug, Drop)]
pub struct Delay {
    pub name: Text,
    pub ms: u64,
}

/// The bases of the delay, node by node. The first of a node counts.
pub type Delays = Sequence<Delay>;

/// The base of the delay before `off` and `reboot`.
#[derive(Debug, Drop)]
pub enum Base {
    Fixed(u64),
    ByNode(Delays),
}

/// What a device is registered with: its agent's actions, the nodes that it serves, its limits and
/// times. Times are milliseconds. `cap` is the greatest number of runs that its name may have alive at
/// once, None where there is no limit. `argument` is the agent's option that carries the port, and
/// `own` are the options that are passed on to the agent. The parameters are those of
/// pacemaker-fenced(7); `keep`, the time for which a list answer is kept, is this project's own.
#[derive(Debug, Drop)]
pub struct Definition {
    pub actions: Actions,
    pub check: HostCheck,
    pub hosts: Names,
    pub map: Pairs,
    pub argument: Option<Text>,
    pub cap: Option<u32>,
    pub priority: i32,
    pub base: Base,
    pub max: u64,
    pub keep: u64,
    pub on: Allowed,
    pub off: Allowed,
    pub reboot: Allowed,
    pub list: Allowed,
    pub status: Allowed,
    pub own: Pairs,
}

/// A device as it is registered.
#[derive(Debug, Drop)]
pub struct Registration {
    pub name: Text,
    pub agent: Text,
    pub definition: Definition,
}

/// A parameter of an agent, and whether it must be given.
#[derive(Debug, Drop)]
pub struct Parameter {
    pub name: Text,
    pub required: bool,
}

/// The parameters of an agent.
pub type Parameters = Sequence<Parameter>;

/// What is told of an agent: its actions, its parameters, and the one that takes the node.
#[derive(Debug, Drop)]
pub struct Description {
    pub actions: Actions,
    pub parameters: Parameters,
    pub target: Option<Text>,
}

impl Definition {
    /// What the definition allows an action.
    pub fn allowed(&self, kind: Kind) -> &Allowed
        ensures { result.now ≡ Device.allowed self.now kind }
    {
        match kind {
            Kind::On => &self.on,
            Kind::Off => &self.off,
            Kind::Reboot => &self.reboot,
            Kind::List => &self.list,
            Kind::Status => &self.status,
        }
    }

    /// Whether the agent has an action.
    pub fn has(&self, kind: Kind) -> bool
        ensures { result ≡ Device.has self.now kind }
    {
        match kind {
            Kind::On => self.actions.on,
            Kind::Off => self.actions.off,
            Kind::Reboot => self.actions.reboot,
            Kind::List => self.actions.list,
            Kind::Status => self.actions.status,
        }
    }

    /// Whether the device can serve a request for an action without levels. A reboot needs only off.
    pub fn serves(&self, kind: Kind) -> bool
        ensures { result ≡ Device.serves self.now kind }
    {
        match kind {
            Kind::Reboot => self.actions.off,
            _ => self.has(kind),
        }
    }

    /// Whether the device has what a level wants of it for an action. Only on can be wanting.
    pub fn is_fit(&self, kind: Kind) -> bool
        ensures { result ≡ Slots.is_fit kind self.now }
    {
        match kind {
            Kind::On => self.actions.on,
            _ => true,
        }
    }

    /// What is run where an action is wanted: a device without reboot is switched off.
    pub fn acting(&self, kind: Kind) -> Kind
        ensures { result ≡ Slots.acting kind self.now }
    {
        match kind {
            Kind::Reboot => {
                if self.actions.reboot {
                    Kind::Reboot
                } else {
                    Kind::Off
                }
            }
            _ => kind,
        }
    }

    /// Whether the definition names the target, as a host or in its map.
    pub fn names(&self, target: &str) -> bool
        ensures { result ≡ Device.names self.now target.now }
    {
        has_name(self.hosts.as_slice(), target) || has_pair(self.map.as_slice(), target)
    }

    /// What the device calls the target: its first port in the map, else the target's own name.
    pub fn port_of<'a>(&'a self, target: &'a str) -> &'a str
        ensures { result.now ≡ Device.port_of self.now target.now }
    {
        match find_pair(self.map.as_slice(), target) {
            Some(pair) => pair.value.as_str(),
            None => target,
        }
    }

    /// The delay before the first try of an action.
    pub fn delay_of(&self, kind: Kind, target: &str, coin: u64) -> u64
        ensures { result ≡ Device.delay self.now kind target.now coin }
    {
        if kind.cuts_power() {
            drawn(self.base.of(target), self.max, coin)
        } else {
            0
        }
    }
}

fn drawn(base: u64, most: u64, coin: u64) -> u64
    ensures { result ≡ Device.drawn base most coin }
{
    if most <= base {
        base
    } else {
        base + coin % (most - base)
    }
}

impl Base {
    fn of(&self, target: &str) -> u64
        ensures { result ≡ Device.base_of self.now target.now }
    {
        match self {
            Base::Fixed(ms) => *ms,
            Base::ByNode(delays) => delay_in(delays.as_slice(), target),
        }
    }
}

fn delay_in(delays: &[Delay], target: &str) -> u64
    ensures { result ≡ Device.delay_for delays.now target.now }
{
    for delay in delays {
        if delay.name.is(target) {
            return delay.ms;
        }
    }
    0
}
