// What can happen, each with what is known of it.

use crate::boxed::Boxed;
use crate::cause::Cause;
use crate::definition::{Description, Registration};
use crate::entry::{Answer, Exit, Kind, LevelTarget, Reg, Req, Run, Scope, Slot};
use crate::names::Names;
use crate::text::Text;

/// A device was registered under a new number.
#[derive(Debug, Drop)]
pub struct Registered {
    pub reg: Reg,
    pub registration: Boxed<Registration>,
}

/// A level of the topology was set: its devices, by name, for one node or a pattern. It takes the
/// place of an earlier one of the same target and index.
#[derive(Debug, Drop)]
pub struct LevelSet {
    pub target: LevelTarget,
    pub index: u8,
    pub devices: Names,
}

/// A level of the topology was cleared.
#[derive(Debug, Drop)]
pub struct LevelCleared {
    pub target: LevelTarget,
    pub index: u8,
}

/// An agent was described.
#[derive(Debug, Drop)]
pub struct Described {
    pub name: Text,
    pub description: Boxed<Description>,
}

/// A client asked that a node be fenced. `lead` is the request whose operation it joins, or its own
/// number where it begins one. The total is in milliseconds; the coin draws the delay.
#[derive(Debug, Drop)]
pub struct Request {
    pub req: Req,
    pub lead: Req,
    pub client: Text,
    pub kind: Kind,
    pub target: Text,
    pub total: u64,
    pub coin: u64,
    pub scope: Scope,
}

/// A run of an agent ended. `listed` says whether it was a list action whose output names the node.
#[derive(Clone, Copy, Debug, PartialEq, Eq)]
pub struct Ended {
    pub run: Run,
    pub exit: Exit,
    pub listed: bool,
}

/// An operator said that a node is down.
#[derive(Debug, Drop)]
pub struct Confirmation {
    pub client: Text,
    pub target: Text,
}

/// A line of input was refused, by the first cause that it had.
#[derive(Clone, Copy, Debug, PartialEq, Eq)]
pub struct Refusal {
    pub line: u32,
    pub cause: Cause,
}

/// A run of an agent began: of which operation, slot and registration, what it does, and which try of
/// its slot it is, from 1.
#[derive(Clone, Copy, Debug, PartialEq, Eq)]
pub struct Start {
    pub run: Run,
    pub req: Req,
    pub slot: Slot,
    pub reg: Reg,
    pub kind: Kind,
    pub attempt: u8,
}

/// A request was answered.
#[derive(Clone, Copy, Debug, PartialEq, Eq)]
pub struct Reply {
    pub req: Req,
    pub answer: Answer,
}

/// What happened. A start and a reply are outputs, all others are inputs. `Gone` is a registration that
/// was removed; `Pass` is a line that only lets time pass.
#[derive(Debug, Drop)]
pub enum Event {
    Device(Registered),
    Gone { reg: Reg },
    Level(LevelSet),
    LevelGone(LevelCleared),
    Agent(Described),
    Ask(Boxed<Request>),
    Exit(Ended),
    Pass,
    Confirm(Confirmation),
    Refused(Refusal),
    Start(Start),
    Reply(Reply),
}
