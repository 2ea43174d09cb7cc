// A modelled power switch, its text, and the fence agent that acts on it: which plugs its options mean, and what it
// does to them by its table.
#![tactic(auto)]

mod acting;
mod action;
mod listing;
mod operations;
mod plug;
mod references;
mod run;
mod status;
mod switch;

pub use acting::{Acted, act, agent};
pub use action::{Action, Operation};
pub use plug::{LineFault, MOST_FAILURES, MOST_PLUGS, Plug};
pub use run::{AgentRun, run_agent};
pub use switch::{Switch, SwitchFault, read_switch, switch_text};
