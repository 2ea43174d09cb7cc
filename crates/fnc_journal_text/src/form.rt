// The forms in which a session prints its journal.

/// What is printed of a journal: its answers alone, or each entry.
#[derive(Clone, Copy, Debug, PartialEq, Eq)]
pub enum Form {
    Answers,
    Journal,
}
