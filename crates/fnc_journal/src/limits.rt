// The limits of what a fencer takes and keeps, and what counts where nothing is said. Each stands here once: code and
// contracts cite it by its name, definitions and proofs as `Rattle.fnc_journal.specs.declared.limits.TheConstants`
// gives it, which is the very same constant.

/// The greatest moment, in milliseconds.
pub const GREATEST_MOMENT: u64 = 1_000_000_000_000_000;

/// A day, in milliseconds: no time and no total is longer.
pub const DAY: u64 = 86_400_000;

/// The total of a request that gives none, in milliseconds: ten minutes.
pub const DEFAULT_TOTAL: u64 = 600_000;

/// The time of an action, over all its tries, where a device gives none, in milliseconds: a minute.
pub const DEFAULT_TIME: u64 = 60_000;

/// The tries of an action where a device gives none.
pub const DEFAULT_TRIES: u8 = 2;

/// The greatest number of tries of an action.
pub const MOST_TRIES: u8 = 16;

/// The greatest limit of runs of a device that may be alive at once.
pub const MOST_RUNS: u32 = 64;

/// The greatest priority of a device. The least is as far below 0.
pub const GREATEST_PRIORITY: u32 = 1_000_000;

/// The greatest number of devices whose names are registered at once.
pub const MOST_DEVICES: usize = 128;

/// The greatest number of levels that stand at once, over all targets.
pub const MOST_LEVELS: usize = 1_024;

/// The greatest number of levels of one target, which is also their greatest index.
pub const MOST_LEVELS_OF_TARGET: u8 = 9;

/// The greatest number of devices of one level.
pub const MOST_DEVICES_OF_LEVEL: usize = 8;

/// The greatest number of agents that are described at once.
pub const MOST_AGENTS: usize = 64;

/// The greatest number of parameters that an agent describes.
pub const MOST_PARAMETERS: usize = 64;

/// The greatest number of options of a device.
pub const MOST_OPTIONS: usize = 32;

/// The greatest number of hosts of a device: those of its list, those of its map, and those with a delay each.
pub const MOST_HOSTS: usize = 256;

/// The longest name of a device, a client, an agent or a node, and the longest pattern, in bytes.
pub const LONGEST_NAME: usize = 255;

/// The longest name of an option, in bytes.
pub const LONGEST_OPTION_NAME: usize = 64;

/// The longest value of an option, in bytes.
pub const LONGEST_VALUE: usize = 4_096;

/// The longest line of a session, in bytes, without its line feed.
pub const LONGEST_LINE: usize = 8_192;

/// The longest line of a journal's text, in bytes, without its line feed.
pub const LONGEST_JOURNAL_LINE: usize = 65_536;

/// The longest output of an agent's run, in bytes.
pub const LONGEST_OUTPUT: usize = 65_536;

/// The longest text of options that an agent is sent, in bytes.
pub const LONGEST_OPTIONS: usize = 32_768;

/// The least number of entries that a journal may be limited to.
pub const LEAST_JOURNAL: u32 = 16_384;

/// The number of entries that a journal is limited to where nothing is said.
pub const DEFAULT_JOURNAL: u32 = 65_536;

/// The greatest number of entries that a journal may be limited to.
pub const GREATEST_JOURNAL: u32 = 1_048_576;
