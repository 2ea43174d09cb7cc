// The commands of the fencer, each chosen by the words of its command line.
#![tactic(auto)]

mod tool;

pub use tool::{Tooled, run_tool};
