// What is asked of a journal.

/// What is asked of a journal: whether it is lawful, or how the requests for a node were answered.
#[derive(Clone, Copy)]
pub(crate) enum Question<'a> {
    Verdict,
    Answers(&'a str),
}

impl Question<'_> {
    /// Whether the journal is to be judged.
    pub fn is_verdict(self) -> bool {
        matches!(self, Question::Verdict)
    }
}
