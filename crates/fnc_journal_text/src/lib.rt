// The journal on paper, version 3 of its text: one line for each entry, and one spelling for each.
#![tactic(auto)]

mod definition;
mod event;
mod form;
mod lists;
mod paper;
mod parts;
mod words;

pub use form::Form;
pub use paper::{head_line, print_entry, print_head, print_one, print_spelling};
pub use words::{answer_piece, answer_word, check_word, phase_word};
