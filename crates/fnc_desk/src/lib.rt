// The desk of a session, between the core and what stands outside: each line that comes gives exactly one input entry of
// the journal, by what the line says and by what the journal says already; and the lines of the journal are printed.
#![tactic(auto)]

mod command;
mod denial;
mod desk;
mod entering;
mod fencer;
mod output;
mod tally;

pub use desk::Desk;
pub use entering::Given;
pub use output::{print_end, print_from, print_line};
