// What a word spells, put into a buffer that was made before.

ghost use Rattle.std.specs.Prelude.{◌≡◌, ◌≤◌, length, Ok, Err, MatchResult};
ghost use Rattle.std.specs.Str.{is_utf8};
ghost use Rattle.fnc_command.specs.Fields.{bytes_of, text_of};

use fnc_journal::Cause;
use fnc_outside::LineBuf;
use fnc_text::malformed;
use percent_encoding::percent_decode;
use std::str::from_utf8;

/// Puts the bytes that a word spells into a buffer, in place of what it held.
pub fn spell(word: &[u8], out: &mut LineBuf) -> Result<(), Cause>
    requires { length word.now ≤ out.old.size }
    ensures read { MatchResult result (λ _. bytes_of word.now ≡ Ok out.new.bytes) (λ cause.
        bytes_of word.now ≡ Err cause) }
    ensures size { out.new.size ≡ out.old.size }
{
    out.clear();
    if let Some(_place) = malformed(word) {
        return Err(Cause::BadEscape);
    }
    for byte in percent_decode(word) {
        out.append(&[byte]);
    }
    Ok(())
}

/// Puts the text that a word spells into a buffer, in place of what it held.
pub fn spell_text(word: &[u8], out: &mut LineBuf) -> Result<(), Cause>
    requires { length word.now ≤ out.old.size }
    ensures read { MatchResult result (λ _. text_of word.now ≡ Ok out.new.bytes) (λ cause.
        text_of word.now ≡ Err cause) }
    ensures size { out.new.size ≡ out.old.size }
{
    spell(word, out)?;
    if is_utf8(out.bytes()) {
        Ok(())
    } else {
        Err(Cause::BadEscape)
    }
}

/// Whether bytes are a text.
pub fn is_utf8(bytes: &[u8]) -> bool
    ensures { result ≡ is_utf8 bytes.now }
{
    match from_utf8(bytes) {
        Ok(_) => true,
        Err(_) => false,
    }
}
