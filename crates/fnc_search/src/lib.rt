// What the first entries of a journal say: the registration, request and run of a number, which its index
// finds, the levels that stand for a node, what was seen of a slot, by the entries of its operation alone, and
// the candidates of a request. Each answer equals its definition, for journals from anywhere, and takes no memory.
#![tactic(auto)]

mod begun;
mod candidates;
mod found;
mod kept;
mod level;
mod past;
mod planned;
mod pursued;
mod registered;
mod seen;
mod task;

pub use begun::{begun_from, is_idle};
pub use candidates::{After, Candidate, next_candidate, query_of};
pub use found::{Asked, has_exit, is_answered, lead, registration, request, start_of};
pub use level::{Level, Target, level_of, oldest, pattern_at, scoped_target, stands, top_of};
pub use past::Past;
pub use planned::is_plan;
pub use pursued::{Operation, operation_of};
pub use registered::{is_current, lane_of};
pub use seen::{Last, Seen, looked_at};
pub use task::{Device, Task, act_task, device_of, on_task, placed_at};
