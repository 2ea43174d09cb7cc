// How a text is cut at a byte.

ghost use Rattle.std.specs.Prelude.{◌≡◌, ◌≤◌, ◌==◌, drop, length};
ghost use Rattle.std.specs.List.{position_or_len};
ghost use Rattle.fnc_journal_reader.specs.Cuts as Cuts;

/// How many bytes stand before the first such byte.
fn front_length(text: &[u8], separator: u8) -> usize
    ensures count { result ≡ position_or_len (λ b. b == separator) text.now }
    ensures within { result ≤ length text.now }
{
    text.iter().take_while(|b| **b != separator).count()
}

/// What stands before the first such byte.
pub(crate) fn front(text: &[u8], separator: u8) -> &[u8]
    ensures { result.now ≡ Cuts.front separator text.now }
{
    &text[..front_length(text, separator)]
}

/// What follows the first such byte, nothing where there is none.
pub(crate) fn after(text: &[u8], separator: u8) -> &[u8]
    ensures { result.now ≡ Cuts.after separator text.now }
{
    let length = front_length(text, separator);
    if length == text.len() {
        &text[length..]
    } else {
        &text[length + 1..]
    }
}

/// What follows so many words of a line.
pub(crate) fn rest(line: &[u8], index: usize) -> &[u8]
    ensures { Cuts.words result.now ≡ drop index (Cuts.words line.now) }
{
    let mut rest = line;
    for _ in 0..index {
        rest = after(rest, b' ');
    }
    rest
}

/// The word of an index, counted from 0.
pub(crate) fn word(line: &[u8], index: usize) -> &[u8]
    ensures { result.now ≡ Cuts.nth (Cuts.words line.now) index }
{
    front(rest(line, index), b' ')
}

/// What follows the equals sign in the word of an index.
pub(crate) fn value(line: &[u8], index: usize) -> &[u8]
    ensures { result.now ≡ Cuts.value (Cuts.words line.now) index }
{
    after(word(line, index), b'=')
}
