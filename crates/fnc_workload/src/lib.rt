// A session that makes its own lines: each is a function of the draws so far and of the runs that are alive, and goes the
// way that a line of any session goes; at the end the journal is counted and summed up in one line.
#![tactic(auto)]

mod making;
mod served;
mod session;
mod sought;
mod summary;
mod tally;
mod turn;

pub use session::{Worked, workload};
