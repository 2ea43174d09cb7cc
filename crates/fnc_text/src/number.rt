// Numbers written in decimal digits.

ghost use Rattle.std.specs.Prelude.{◌≡◌, ◌≤◌, IsTrue, IfSome};
ghost use Rattle.std.specs.Char.{is_ascii_digit};
ghost use Rattle.std.specs.List.{list_all};
ghost use Rattle.fnc_text.specs.Digits.{digits_value, at_most, is_number, number};

/// The number that 1 to 20 decimal digits spell. None where the text is anything else, or the
/// number is above `most`. Leading zeros are read.
pub fn read_number(text: &[u8], most: u64) -> Option<u64>
    ensures value { result ≡ number most text.now }
    ensures within { IfSome result (λ n. n ≤ most) }
{
    if is_number(text) {
        value_up_to(text, most)
    } else {
        None
    }
}

fn is_number(text: &[u8]) -> bool
    ensures { result ≡ is_number text.now }
{
    !text.is_empty() && text.len() <= 20 && are_digits(text)
}

fn are_digits(text: &[u8]) -> bool
    ensures { result ≡ list_all is_ascii_digit text.now }
{
    text.iter().all(|b| b.is_ascii_digit())
}

/// The number that digits spell, where it is at most `most`.
pub(crate) fn value_up_to(digits: &[u8], most: u64) -> Option<u64>
    requires { IsTrue (list_all is_ascii_digit digits.now) }
    ensures value { result ≡ at_most most (digits_value digits.now) }
    ensures within { IfSome result (λ n. n ≤ most) }
{
    let mut value = 0u64;
    for digit in digits {
        value = value
            .checked_mul(10)?
            .checked_add(u64::from(*digit - b'0'))?;
    }
    (value <= most).then_some(value)
}
