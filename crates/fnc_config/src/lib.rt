// The configuration: which devices are registered, which levels stand, and which agents are described. Each entry of a
// journal that changes it is told to it, and its answers are those of that journal: the current registration of a name,
// and the plan of a request.
#![tactic(auto)]

mod candidates;
mod compiled;
mod config;
mod faults;
mod kept;
mod levels;
mod numbers;
mod pattern;
mod planned;
mod shape;
mod targets;

pub use config::Config;
pub use faults::{AgentFault, LevelFault, NoLevel, NotRegistered, RegisterFault};
