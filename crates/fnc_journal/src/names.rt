// Lists of names, and of names with what stands for them.

ghost use Rattle.std.specs.Prelude.{◌≡◌, bytes_eq, find, option_map};
ghost use Rattle.std.specs.List.{list_any};
ghost use Rattle.std.specs.Option.{option_copied};

use crate::sequence::Sequence;
use crate::text::Text;

/// A list of texts.
pub type Names = Sequence<Text>;

/// A name and what stands for it.
#[derive(Debug, Drop)]
pub struct Pair {
    pub name: Text,
    pub value: Text,
}

/// A list of pairs.
pub type Pairs = Sequence<Pair>;

/// Whether a text is in the list.
pub fn has_name(names: &[Text], text: &str) -> bool
    ensures { result ≡ list_any (bytes_eq text.now) names.now }
{
    names.iter().any(|n| n.is(text))
}

/// Whether a text is the name of a pair.
pub fn has_pair(pairs: &[Pair], text: &str) -> bool
    ensures { result ≡ list_any (λ p. bytes_eq text.now p.name) pairs.now }
{
    pairs.iter().any(|p| p.name.is(text))
}

/// The first pair of a name.
pub fn find_pair<'a>(pairs: &'a [Pair], text: &str) -> Option<&'a Pair>
    ensures { option_copied result ≡ find (λ p. bytes_eq text.now p.name) pairs.now }
{
    pairs.iter().find(|p| p.name.is(text))
}
