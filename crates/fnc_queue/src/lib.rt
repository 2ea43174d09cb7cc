// The queue of starts: the tries that wait for one, and the runs that are alive. A device starts no more
// at once than its limit; who has been ready for the longest starts first.
#![tactic(auto)]

mod items;
mod lanes;
mod lines;
mod queue;
mod waiting;

pub use queue::Queue;
pub use waiting::Waiting;
