// Tables that stand as data: rows of words, read from standard input, and what is said of each row, printed behind it.
// The programs that try the fencer's crates on tables stand on it.
#![tactic(auto)]

mod row;
mod spelling;
mod table;

pub use row::Row;
pub use table::{Reading, print_table};
