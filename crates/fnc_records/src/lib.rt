// The records of slots, of levels and of operations: what the starts and exits of an operation's runs say of
// them. Each answer that is read off a record is a computation on it, and an operation's record that is told each
// start and exit in turn is, by the laws of the proofs, what the journal says of the operation.
#![tactic(auto)]

mod level;
mod operation;
mod slot;

pub use level::LevelRecord;
pub use operation::{OperationRecord, Standing};
pub use slot::{LastRun, SlotRecord};
