// What an agent is run with for a start: its program, what it is sent on its standard input, and how long it has.
#![tactic(auto)]

mod input;
mod job;

pub use job::{Job, job_of};
