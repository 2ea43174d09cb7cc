// The small pieces that every text of the fencer is made of: numbers, durations, words, escapes
// and names. Each reader equals its grammar in `specs/`.
#![tactic(auto)]

mod duration;
mod escape;
mod name;
mod number;
mod word;

pub use duration::{DurationFault, read_duration};
pub use escape::{EscapeFault, malformed, unescape, unescape_bytes};
pub use name::is_name;
pub use number::read_number;
pub use word::{Span, next_word};
