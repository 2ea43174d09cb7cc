// Names of devices, clients, agents and nodes.

ghost use Rattle.std.specs.Prelude.{◌≡◌};
ghost use Rattle.std.specs.List.{list_all};
ghost use Rattle.fnc_journal.specs.Names.{is_name, is_name_byte};

use fnc_journal::limits::LONGEST_NAME;

/// Whether a text is a name: 1 to 255 bytes, none of them a control byte, a space or a comma.
pub fn is_name(text: &str) -> bool
    ensures { result ≡ is_name text.now }
{
    !text.is_empty() && text.len() <= LONGEST_NAME && are_name_bytes(text.as_bytes())
}

fn are_name_bytes(text: &[u8]) -> bool
    ensures { result ≡ list_all is_name_byte text.now }
{
    text.iter().all(|b| is_name_byte(*b))
}

fn is_name_byte(byte: u8) -> bool
    ensures { result ≡ is_name_byte byte }
{
    byte >= 0x21 && byte != 0x7F && byte != b','
}
