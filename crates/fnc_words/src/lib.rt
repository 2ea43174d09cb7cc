// The words of a command line: which command they name, and with which values. The first word chooses the command;
// the words after it are read by `clap`.
#![tactic(auto)]

mod argument;
mod audit;
mod command;
mod course;
mod inquiry;
mod matching;
mod session;
mod value;

pub use audit::Audit;
pub use command::{Command, Name, WordsFault, read_words};
pub use course::{Course, LEAST_STEPS, MOST_STEPS};
pub use inquiry::Inquiry;
pub use session::Session;
