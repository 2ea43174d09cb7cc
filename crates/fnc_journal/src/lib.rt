// The journal of a fencer: what came to it and what it did, entry by entry. The definitions in
// `specs/` speak of such journals alone: which are lawful, which answer is due, which start comes next.
#![tactic(auto)]

mod boxed;
mod cause;
mod cells;
mod chains;
mod definition;
mod entry;
mod event;
mod firsts;
mod heads;
mod index;
mod journal;
mod lanes;
pub mod limits;
mod links;
mod lookups;
mod names;
mod option;
mod outcome;
mod plan;
mod sequence;
mod stray;
mod text;

pub use boxed::Boxed;
pub use cause::Cause;
pub use definition::{
    Actions, Allowed, Base, Definition, Delay, Delays, Description, HostCheck, Parameter,
    Parameters, Registration,
};
pub use entry::{Answer, Entry, Exit, Kind, LevelTarget, Phase, Reg, Req, Run, Scope, Slot};
pub use event::{
    Confirmation, Described, Ended, Event, LevelCleared, LevelSet, Refusal, Registered, Reply,
    Request, Start,
};
pub use journal::Journal;
pub use names::{Names, Pair, Pairs, find_pair, has_name, has_pair};
pub use option::{is_option_name, is_option_value, is_own, is_value_byte};
pub use outcome::{Full, NoMemory, Outcome, Rule};
pub use plan::{Candidate, Candidates, Levels, Places, Plan, PlanLevel};
pub use sequence::Sequence;
pub use text::{Bytes, Text};
