// The judge of journals: the first entry that breaks a rule, and the rule. For each entry it gathers anew
// where each open operation stands, what is due to it, and which start comes first. It takes no memory. Entries that are
// known to be lawful are left out.
#![tactic(auto)]

mod course;
mod gathered;
mod numbers;
mod ordered;
mod requests;
mod rules;
mod setup;
mod startable;
mod survey;
mod verdict;

pub use fnc_search::is_plan;
pub use ordered::is_in_order;
pub use verdict::{Verdict, judge, judge_from};
