// Bytes cut in two at the first of a separator.

ghost use Rattle.std.specs.Prelude.{◌≡◌, ◌<◌, ◌≤◌, ◌==◌, length};
ghost use Rattle.std.specs.List.{position_or_len};
ghost use Rattle.fnc_agent_api.specs.Cuts.{before, after};

fn length_before(bytes: &[u8], separator: u8) -> usize
    ensures value { result ≡ position_or_len (λ b. b == separator) bytes.now }
    ensures within { result ≤ length bytes.now }
{
    bytes.iter().take_while(|b| **b != separator).count()
}

/// What stands before the first separator and what after it: all and nothing where there is none.
pub fn cut(bytes: &[u8], separator: u8) -> (&[u8], &[u8])
    ensures front { result.0.now ≡ before separator bytes.now }
    ensures back { result.1.now ≡ after separator bytes.now }
{
    let at = length_before(bytes, separator);
    if at < bytes.len() {
        (&bytes[..at], &bytes[at + 1..])
    } else {
        (bytes, &[])
    }
}

/// The same of a text.
pub fn cut_text(text: &str, separator: char) -> (&str, &str)
    requires { separator < 128 }
    ensures front { result.0.now ≡ before separator text.now }
    ensures back { result.1.now ≡ after separator text.now }
{
    match text.split_once(separator) {
        Some(parts) => parts,
        None => (text, ""),
    }
}
