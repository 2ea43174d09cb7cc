// Sessions of lines: each line of a source is entered, all starts are made, and the new lines of the
// journal go to a sink.
#![tactic(auto)]

mod printed;
mod session;
mod starts;
mod taken;
mod timed;
mod turn;
mod turns;

pub use session::{Replayed, replay};
pub use starts::start_all;
pub use timed::Timed;
