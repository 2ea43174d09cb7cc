// Worked journals. Whole sessions are written down entry by entry, and the definitions of `fnc_journal`
// are evaluated on them: which journals are lawful, calm and driven, which rule a changed journal breaks
// first, and what is printed. The functions here have no code: what each ensures is the theorem.
#![tactic(auto)]

mod confirmed;
mod deadlines;
mod delays;
mod faulty_inputs;
mod faulty_replies;
mod faulty_starts;
mod laws;
mod limits;
mod one_device;
mod owed;
mod queries;
mod refusals;
mod split_reboots;
mod topology;
mod unserved;

pub use confirmed::confirmed_sessions;
pub use deadlines::deadline_sessions;
pub use delays::delay_sessions;
pub use faulty_inputs::journals_with_a_faulty_input;
pub use faulty_replies::journals_with_a_faulty_reply;
pub use faulty_starts::journals_with_a_faulty_start;
pub use laws::lawful_without_fault;
pub use limits::limit_sessions;
pub use one_device::one_device_sessions;
pub use owed::entries_owed;
pub use queries::query_sessions;
pub use refusals::refused_sessions;
pub use split_reboots::split_reboot_sessions;
pub use topology::{pattern_births, topology_sessions};
pub use unserved::unserved_inputs;
