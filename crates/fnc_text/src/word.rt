// Words of a line, separated by spaces.

ghost use Rattle.std.specs.Prelude.{◌≡◌, ◌≤◌, length};
ghost use Rattle.std.specs.List.{prefix_len, position_or_len};
ghost use Rattle.fnc_text.specs.Words.{is_space, word_from, NextWord};

/// Where a word stands: from the byte at `start` to the one before `end`.
#[derive(Clone, Copy, Debug, PartialEq, Eq)]
pub struct Span {
    pub start: usize,
    pub end: usize,
}

/// The next word of a line, from a place on: the longest run of bytes other than the space.
pub fn next_word(line: &[u8], from: usize) -> Option<Span>
    requires { from ≤ length line.now }
    ensures place { result ≡ word_from line.now from }
    ensures words { NextWord line.now from result }
{
    word_from(line, from)
}

fn word_from(line: &[u8], from: usize) -> Option<Span>
    requires { from ≤ length line.now }
    ensures { result ≡ word_from line.now from }
{
    let start = from + spaces(&line[from..]);
    let length = letters(&line[start..]);
    (length > 0).then_some(Span {
        start,
        end: start + length,
    })
}

/// How many spaces a text begins with.
fn spaces(text: &[u8]) -> usize
    ensures count { result ≡ prefix_len is_space text.now }
    ensures within { result ≤ length text.now }
{
    text.iter().take_while(|b| **b == b' ').count()
}

/// How many bytes other than the space a text begins with.
fn letters(text: &[u8]) -> usize
    ensures count { result ≡ position_or_len is_space text.now }
    ensures within { result ≤ length text.now }
{
    text.iter().take_while(|b| **b != b' ').count()
}
