// Blanks at the ends of a line: spaces, tabs and carriage returns.

ghost use Rattle.std.specs.Prelude.{◌≡◌, ◌≤◌, length};
ghost use Rattle.std.specs.List.{prefix_len, suffix_len};
ghost use Rattle.fnc_agent_api.specs.Blanks.{is_blank, trimmed as trimmed_of};

fn is_blank_byte(byte: u8) -> bool
    ensures { result ≡ is_blank byte }
{
    byte == b' ' || byte == b'\t' || byte == b'\r'
}

fn leading_blanks(bytes: &[u8]) -> usize
    ensures value { result ≡ prefix_len is_blank bytes.now }
    ensures within { result ≤ length bytes.now }
{
    bytes.iter().take_while(|b| is_blank_byte(**b)).count()
}

fn trailing_blanks(bytes: &[u8]) -> usize
    ensures value { result ≡ suffix_len is_blank bytes.now }
    ensures within { result ≤ length bytes.now }
{
    bytes
        .iter()
        .rev()
        .take_while(|b| is_blank_byte(**b))
        .count()
}

/// The bytes without the blanks at both ends.
pub fn trimmed(bytes: &[u8]) -> &[u8]
    ensures { result.now ≡ trimmed_of bytes.now }
{
    let rest = &bytes[leading_blanks(bytes)..];
    &rest[..rest.len() - trailing_blanks(rest)]
}

/// The text without the blanks at both ends.
#[tactic(auto, using(crate::proofs::Boundaries::leading_boundary, crate::proofs::Boundaries::trailing_boundary))]
pub fn trimmed_text(text: &str) -> &str
    ensures { result.now ≡ trimmed_of text.now }
{
    let rest = &text[leading_blanks(text.as_bytes())..];
    &rest[..rest.len() - trailing_blanks(rest.as_bytes())]
}
