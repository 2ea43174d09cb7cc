// The text of a journal is read back line by line, and what is to be said of the journal is written: the verdict on it,
// or the answers to the requests for a node.
#![tactic(auto)]

mod audited;
mod question;
mod reading;
mod replies;
mod saying;
mod text;
mod verdicts;

pub use audited::{Audited, audit, history};
