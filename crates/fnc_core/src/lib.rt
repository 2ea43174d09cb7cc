// The state machine: a journal that is lawful after every call, with the records of its open operations and the
// queue of the tries that wait. An event is an advance of the moment, an input, an exit or a start; each is followed
// by the replies that it made due.
#![tactic(auto)]

mod asking;
mod change;
mod entering;
mod inputs;
mod lanes;
mod law;
mod limits;
mod machine;
mod parts;
mod queueing;
mod refusal;
mod replies;
mod starts;
mod time;

pub use change::{Ask, Change, Started};
pub use law::calls_add_at_the_end;
pub use machine::Core;
pub use refusal::{AskRefusal, UnknownRun};
