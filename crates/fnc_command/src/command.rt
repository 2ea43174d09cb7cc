// What a line says.

use fnc_journal::{Bytes, Exit, Kind, LevelTarget, Names, Pairs, Run, Text};

/// Whether lines begin with their moment, or stand at the moment at which they come.
#[derive(Clone, Copy, Debug, PartialEq, Eq)]
pub enum Mode {
    Timed,
    Live,
}

/// What a line says, as it is written: nothing was looked up yet.
#[derive(Debug, Drop)]
pub enum Command {
    /// A device is registered. The agent is there where the line names one.
    Device {
        name: Text,
        agent: Option<Text>,
        options: Pairs,
    },
    /// A device is taken back.
    Remove {
        name: Text,
    },
    /// A level is set.
    Level {
        target: LevelTarget,
        index: u64,
        devices: Names,
    },
    /// A level is taken away.
    Unlevel {
        target: LevelTarget,
        index: u64,
    },
    /// An agent is described by a text in JSON.
    Agent {
        name: Text,
        json: Bytes,
    },
    /// A client asks for an action. The total is in milliseconds.
    Ask {
        client: Text,
        kind: Kind,
        target: Text,
        total: u64,
        coin: Option<u64>,
    },
    /// A run has ended.
    Exit {
        run: Run,
        exit: Exit,
        output: Bytes,
    },
    /// Time has passed.
    Pass,
    /// A client has seen that a target is down.
    Confirm {
        client: Text,
        target: Text,
    },
}

/// A line that says something. The moment, in milliseconds, is there in mode Timed.
#[derive(Debug, Drop)]
pub struct Read {
    pub moment: Option<u64>,
    pub command: Command,
}

/// A line that says that a run has ended.
#[derive(Clone, Copy, Debug, PartialEq, Eq)]
pub struct ExitRead {
    pub moment: u64,
    pub run: Run,
    pub exit: Exit,
}
