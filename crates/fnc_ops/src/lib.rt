// The list of the records of open operations, and how the record of an operation begins. Each answer that is read
// off the records equals the definition's search of the journal for which they stand.
#![tactic(auto)]

mod begin;
mod fresh;
mod ops;
mod planned;
mod records;

pub use ops::{Due, Operation, Ops};
pub use planned::allowed_tries;
