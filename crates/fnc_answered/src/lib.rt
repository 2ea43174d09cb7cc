// Where nothing is left to start or to answer, every request has its answer: a law of lawful journals.
#![tactic(auto)]

mod law;

pub use law::all_are_answered;
