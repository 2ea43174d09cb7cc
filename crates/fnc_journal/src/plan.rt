// What an operation may try, fixed when it begins.

use crate::entry::{Kind, Reg, Scope};
use crate::sequence::Sequence;

/// The devices of a level in order, each by its current registration; None where the name has none.
pub type Places = Sequence<Option<Reg>>;

/// A level of the plan.
#[derive(Debug, Drop)]
pub struct PlanLevel {
    pub index: u8,
    pub devices: Places,
}

/// The levels of the plan, by rising index.
pub type Levels = Sequence<PlanLevel>;

/// A device that may serve a target without levels, and the query that says whether it can.
#[derive(Clone, Copy, Debug, PartialEq, Eq)]
pub struct Candidate {
    pub reg: Reg,
    pub query: Option<Kind>,
}

/// The candidates in the order in which they are tried.
pub type Candidates = Sequence<Candidate>;

/// The plan of an operation: its levels, or where no level stands for its target its candidates.
#[derive(Debug, Drop)]
pub struct Plan {
    pub scope: Scope,
    pub levels: Levels,
    pub candidates: Candidates,
}
