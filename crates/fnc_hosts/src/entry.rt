// The entries of a text of hosts, cut off one after another.

ghost use Rattle.std.specs.Prelude.{◌≡◌, ◌+◌, ◌≤◌, length, drop};
ghost use Rattle.std.specs.List.{prefix_len, position_or_len};
ghost use Rattle.fnc_hosts.specs.Entries.{separates, CutsFirst};

/// How hosts are written: commas, semicolons and spaces separate the entries of a list, semicolons
/// and spaces those of a map.
#[derive(Clone, Copy, Debug, PartialEq, Eq)]
pub enum Form {
    List,
    Map,
}

impl Form {
    fn separates(self, byte: u8) -> bool
        ensures { result ≡ separates self byte }
    {
        match self {
            Form::List => byte == b',' || byte == b';' || byte == b' ',
            Form::Map => byte == b';' || byte == b' ',
        }
    }
}

/// A text cut after its first entry: how many separators stand before the entry, the entry, and
/// what follows it.
#[derive(Clone, Copy)]
pub struct Cut<'a> {
    pub skipped: usize,
    pub entry: &'a str,
    pub rest: &'a str,
}

/// The first entry of a text. None where the text has nothing but separators.
pub fn first_entry(form: Form, text: &str) -> Option<Cut<'_>>
    ensures { CutsFirst (separates form) text.now result }
{
    let (skipped, length) = first_part(form, text.as_bytes());
    if length == 0 {
        return None;
    }
    let end = skipped + length;
    Some(Cut {
        skipped,
        entry: &text[skipped..end],
        rest: &text[end..],
    })
}

/// How many separators a text begins with, and how many other bytes follow them.
fn first_part(form: Form, text: &[u8]) -> (usize, usize)
    ensures skipped { result.0 ≡ prefix_len (separates form) text.now }
    ensures length { result.1 ≡ position_or_len (separates form) (drop result.0 text.now) }
    ensures within { result.0 + result.1 ≤ length text.now }
{
    let skipped = separators(form, text);
    (skipped, letters(form, &text[skipped..]))
}

/// How many separators a text begins with.
fn separators(form: Form, text: &[u8]) -> usize
    ensures count { result ≡ prefix_len (separates form) text.now }
    ensures within { result ≤ length text.now }
{
    text.iter().take_while(|b| form.separates(**b)).count()
}

/// How many bytes other than separators a text begins with.
fn letters(form: Form, text: &[u8]) -> usize
    ensures count { result ≡ position_or_len (separates form) text.now }
    ensures within { result ≤ length text.now }
{
    text.iter().take_while(|b| !form.separates(**b)).count()
}
