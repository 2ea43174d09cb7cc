// The options of a device and of an agent: what may be their names and their values.

ghost use Rattle.std.specs.Prelude.{◌≡◌};
ghost use Rattle.std.specs.List.{list_all};
ghost use Rattle.fnc_journal.specs.Bounds.{is_option_byte, is_option_name, is_option_value, is_own, is_value_byte};

use crate::limits::{LONGEST_OPTION_NAME, LONGEST_VALUE};

/// Whether a text can be the name of an option: 1 to 64 bytes, none of them a control byte, a space
/// or `=`, and the first no `#`.
pub fn is_option_name(name: &str) -> bool
    ensures { result ≡ is_option_name name.now }
{
    match name.as_bytes() {
        [] => false,
        [first, ..] => *first != b'#'
            && name.len() <= LONGEST_OPTION_NAME
            && are_option_bytes(name.as_bytes()),
    }
}

fn are_option_bytes(text: &[u8]) -> bool
    ensures { result ≡ list_all is_option_byte text.now }
{
    text.iter().all(|b| is_option_byte(*b))
}

fn is_option_byte(byte: u8) -> bool
    ensures { result ≡ is_option_byte byte }
{
    byte >= 0x21 && byte != 0x7F && byte != b'='
}

/// Whether a text can be the value of an option: at most 4,096 bytes, none of them a control byte.
pub fn is_option_value(value: &str) -> bool
    ensures { result ≡ is_option_value value.now }
{
    value.len() <= LONGEST_VALUE && are_value_bytes(value.as_bytes())
}

fn are_value_bytes(text: &[u8]) -> bool
    ensures { result ≡ list_all is_value_byte text.now }
{
    text.iter().all(|b| is_value_byte(*b))
}

/// Whether a byte may stand in the value of an option: no control byte.
pub fn is_value_byte(byte: u8) -> bool
    ensures { result ≡ is_value_byte byte }
{
    byte >= 0x20 && byte != 0x7F
}

/// Whether an option of this name is passed on to the agent: all are but those of the fencer itself.
pub fn is_own(name: &str) -> bool
    ensures { result ≡ is_own name.now }
{
    !name.as_bytes().starts_with(b"pcmk_") && name != "priority"
}
