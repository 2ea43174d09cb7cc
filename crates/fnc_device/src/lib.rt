// What the options of a device define: which nodes it serves, when its actions may start and what
// each is allowed. `define` equals its grammar in `specs/`.
#![tactic(auto)]

mod allowance;
mod definition;
mod fault;
mod nodes;
mod option;
mod schedule;
mod time;

pub use definition::define;
pub use fault::DefineFault;
