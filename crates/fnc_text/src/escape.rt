// Escapes, by which a word can hold any byte.

ghost use Rattle.std.specs.Prelude.{◌≡◌};
ghost use Rattle.fnc_text.specs.Escapes.{begins_hexadecimal, malformed_from, as_text, unescaped, unescaped_text, Gives};
ghost use Rattle.fnc_text.specs.declared.escape.EscapeFault.TheVariants.{NoMemory};

use fnc_journal::{Bytes, Text};
use percent_encoding::percent_decode;
use std::alloc::{AllocError, Global};
use thiserror::Error;

/// Why a word cannot be unescaped.
#[derive(Debug, Drop, Error)]
pub enum EscapeFault {
    /// Two hexadecimal digits do not follow the `%` at this byte, the first such.
    #[error("a malformed escape at byte {place}")]
    BadEscape { place: usize },
    /// The bytes that the word spells are no text.
    #[error("no UTF-8")]
    NotUtf8,
    /// Memory was refused.
    #[error("no memory")]
    NoMemory,
}

impl From<AllocError> for EscapeFault {
    ghost from_gives = { λ _ e. e ≡ NoMemory };

    fn from(_e: AllocError) -> EscapeFault {
        EscapeFault::NoMemory
    }
}

/// The text that a word spells. A `%` and two hexadecimal digits, of either case, are a byte.
pub fn unescape(alloc: Global, word: &[u8]) -> Result<Text, EscapeFault>
    ensures { Gives (λ t. t) result (unescaped_text word.now) }
{
    text_of(decoded(alloc, word)?)
}

/// The bytes that a word spells, which need not be a text.
pub fn unescape_bytes(alloc: Global, word: &[u8]) -> Result<Bytes, EscapeFault>
    ensures { Gives (λ t. t) result (unescaped word.now) }
{
    Ok(Bytes::from_vec(decoded(alloc, word)?))
}

fn decoded(alloc: Global, word: &[u8]) -> Result<Vec<u8>, EscapeFault>
    ensures { Gives (λ v. v.items) result (unescaped word.now) }
{
    if let Some(place) = malformed(word) {
        return Err(EscapeFault::BadEscape { place });
    }
    let mut bytes = Vec::new(alloc);
    percent_decode(word).append_to(&mut bytes)?;
    Ok(bytes)
}

fn text_of(bytes: Vec<u8>) -> Result<Text, EscapeFault>
    ensures { result ≡ as_text (Ok bytes.items) }
{
    match String::from_utf8(bytes) {
        Ok(text) => Ok(Text::from_string(text)),
        Err(_) => Err(EscapeFault::NotUtf8),
    }
}

/// The place of the first `%` that two hexadecimal digits do not follow.
pub fn malformed(word: &[u8]) -> Option<usize>
    ensures { result ≡ malformed_from 0 word.now }
{
    for (place, byte) in word.iter().enumerate() {
        if *byte == b'%' && !begins_hexadecimal(&word[place + 1..]) {
            return Some(place);
        }
    }
    None
}

fn begins_hexadecimal(text: &[u8]) -> bool
    ensures { result ≡ begins_hexadecimal text.now }
{
    match text {
        [high, low, ..] => high.is_ascii_hexdigit() && low.is_ascii_hexdigit(),
        _ => false,
    }
}
