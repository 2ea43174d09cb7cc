// What stands outside the fencer's logic: sources of lines and sinks of bytes. Each is a trait whose
// meaning stands in ghost members, with a count of faults, so that whoever is generic over it can say
// what was read and what was written. Beside each trait stands one that works in memory, for tests.
#![tactic(auto)]

mod idle_source;
mod line_buf;
mod memory_sink;
mod memory_source;
mod numbers;
mod sink;
mod source;

pub use idle_source::IdleSource;
pub use line_buf::LineBuf;
pub use memory_sink::{MemorySink, Torn};
pub use memory_source::MemorySource;
pub use sink::{Sink, SinkFailed};
pub use source::{Polled, Source};
