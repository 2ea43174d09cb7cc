// As time passes an operation stands where it stood, until the end of its standing slot has come: laws of lawful
// journals.
#![tactic(auto)]

mod law;

pub use law::each_stands_still;
