// The journal's text read back: each line is read as the entry whose one spelling it is, or is the spelling of none.
#![tactic(auto)]

mod bounds;
mod cases;
mod copied;
mod cuts;
mod fault;
mod read;
mod read_lists;
mod values;

pub use bounds::is_within;
pub use fault::EntryFault;
pub use read::{read_entry, reads_spelling, spelled_once};
