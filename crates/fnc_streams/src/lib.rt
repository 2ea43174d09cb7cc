// The source and the sink of the program itself: lines from what can be read, as standard input, and
// bytes to what can be written, as standard output. They count faults, and tell nothing of contents.
#![tactic(auto)]

mod stream_sink;
mod stream_source;

pub use stream_sink::StreamSink;
pub use stream_source::StreamSource;
