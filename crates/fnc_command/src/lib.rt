// The line language: what a line of input says, or the first cause why it says nothing. `specs/` has
// the language: words, what each word may be, and the words of each verb.
#![tactic(auto)]

mod ask;
mod command;
mod device;
mod field;
mod head;
mod level;
mod option_word;
mod read;
mod spelling;
mod verb;
mod word;

pub use command::{Command, ExitRead, Mode, Read};
pub use read::{read_command, read_exit};
