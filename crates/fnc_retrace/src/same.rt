// Whether two values are the same, as contracts see them: texts, and lists of what can be compared.

ghost use Rattle.std.specs.Prelude.{◌≡◌, IsTrue};

use fnc_journal::{Boxed, Sequence, Text};

/// What can be compared.
pub(crate) trait Same {
    /// Whether this is the other value.
    fn is_same(&self, other: &Self) -> bool
        ensures { IsTrue result → self.now ≡ other.now };
}

impl Same for Text {
    fn is_same(&self, other: &Text) -> bool {
        other.is(self.as_str())
    }
}

impl<T: Same> Same for Boxed<T> {
    fn is_same(&self, other: &Boxed<T>) -> bool {
        self.get().is_same(other.get())
    }
}

impl<T: Same> Same for Option<T> {
    fn is_same(&self, other: &Option<T>) -> bool {
        match (self, other) {
            (Some(one), Some(two)) => one.is_same(two),
            (None, None) => true,
            _ => false,
        }
    }
}

impl<T: Same> Same for Sequence<T> {
    fn is_same(&self, other: &Sequence<T>) -> bool {
        are_same(self.as_slice(), other.as_slice())
    }
}

/// Whether two lists are the same, item by item.
fn are_same<T: Same>(ones: &[T], others: &[T]) -> bool
    ensures { IsTrue result → ones.now ≡ others.now }
{
    if ones.len() != others.len() {
        return false;
    }
    for i in 0..ones.len() {
        if !ones[i].is_same(&others[i]) {
            return false;
        }
    }
    true
}
