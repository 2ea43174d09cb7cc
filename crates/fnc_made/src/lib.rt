// The lines that a workload makes: the bytes of each, and what they never say.
#![tactic(auto)]

mod law;
mod made;

pub use law::made_lines_are_plain;
pub use made::{Made, write_line};
