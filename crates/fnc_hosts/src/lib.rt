// The nodes that a device serves: host lists, host maps, and how a device is asked when neither
// names its nodes. Each reader equals its grammar in `specs/`.
#![tactic(auto)]

mod check;
mod entry;
mod hosts;

pub use check::check_kind;
pub use hosts::{HostFault, read_host_list, read_host_map};
