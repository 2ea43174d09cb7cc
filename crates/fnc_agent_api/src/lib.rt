// The texts that a fencer and its fence agents exchange, after the ClusterLabs Fence Agent API: the options
// that an agent reads on its standard input, the plugs that `list` prints, what an exit status means, and the
// description of an agent, which is JSON.
#![tactic(auto)]

mod blanks;
mod cuts;
mod description;
mod list_output;
mod meaning;
mod option_lines;
mod options;

pub use cuts::cut;
pub use description::{DescribeFault, Field, plain_description, read_description};
pub use list_output::lists;
pub use meaning::{Meaning, exit_meaning};
pub use option_lines::options_text;
pub use options::{OptionFault, Options, read_options};
