// What a core is told, and what it tells of a start.

ghost use Rattle.std.specs.Prelude.{◌≡◌};
ghost use Rattle.fnc_core.specs.Between.{request_of, start_of};

use fnc_journal::{
    Boxed, Confirmation, Described, Kind, LevelCleared, LevelSet, Reg, Registration, Req, Request,
    Run, Scope, Slot, Start, Text,
};

/// What a client asks for: an action on a target within a total time, in milliseconds, with the coin that draws
/// the delays.
#[derive(Debug, Drop)]
pub struct Ask {
    pub client: Text,
    pub kind: Kind,
    pub target: Text,
    pub total: u64,
    pub coin: u64,
}

/// A change of what the fencer knows: a device is registered or removed, a level of the topology is set or taken
/// away, an agent is described, or an operator says that a target is down.
#[derive(Debug, Drop)]
pub enum Change {
    Device(Boxed<Registration>),
    Gone(Reg),
    Level(LevelSet),
    LevelGone(LevelCleared),
    Agent(Described),
    Confirm(Confirmation),
}

impl Ask {
    /// The request of a number, with its lead and its scope.
    pub(crate) fn into_request(self, req: Req, lead: Req, scope: Scope) -> Request
        ensures { result ≡ request_of req lead self scope }
    {
        Request {
            req,
            lead,
            client: self.client,
            kind: self.kind,
            target: self.target,
            total: self.total,
            coin: self.coin,
            scope,
        }
    }
}

/// A start that was made or may be made: the run, its operation and slot, the device's registration, the action,
/// which of the slot's tries it is, and the slot's limit, at which an exit no longer counts.
#[derive(Clone, Copy, Debug, PartialEq, Eq)]
pub struct Started {
    pub run: Run,
    pub req: Req,
    pub slot: Slot,
    pub reg: Reg,
    pub kind: Kind,
    pub attempt: u8,
    pub limit: u64,
}

impl Started {
    /// The start as it is entered.
    pub fn start(&self) -> Start
        ensures { result ≡ start_of self.now }
    {
        Start {
            run: self.run,
            req: self.req,
            slot: self.slot,
            reg: self.reg,
            kind: self.kind,
            attempt: self.attempt,
        }
    }
}
