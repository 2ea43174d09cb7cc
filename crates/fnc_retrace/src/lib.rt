// A journal that is followed as it is read: beside it the state machine is given the same inputs, and as long as it
// writes the same entries they are lawful, and need no search. At the first entry that it does not write it is left, and
// what comes then is judged by search. So the verdict on a journal of the fencer's own costs no more than writing it did.
#![tactic(auto)]

mod devices;
mod events;
mod follower;
mod inputs;
mod retrace;
mod same;

pub use retrace::Retrace;
