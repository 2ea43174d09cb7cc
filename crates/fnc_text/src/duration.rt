// Durations, as operators write the times of a device.

ghost use Rattle.std.specs.Prelude.{◌≡◌, ◌≤◌, IsTrue, IfOk, length, take_while};
ghost use Rattle.std.specs.Char.{is_ascii_digit};
ghost use Rattle.std.specs.List.{list_all, prefix_len};
ghost use Rattle.fnc_text.specs.Durations.{after_digits, unit, duration};

use crate::number::value_up_to;
use fnc_journal::limits::DAY;
use thiserror::Error;

/// Why a text is no duration.
#[derive(Debug, Drop, Error)]
pub enum DurationFault {
    /// It has no byte.
    #[error("no duration")]
    Empty,
    /// It does not begin with a digit.
    #[error("a duration begins with digits")]
    NoDigits,
    /// What follows the digits is no unit.
    #[error("an unknown unit of time")]
    BadUnit,
    /// It is longer than a day.
    #[error("longer than 24 hours")]
    TooLarge,
}

/// A duration in milliseconds: decimal digits and a unit. No unit, `s` and `sec` are seconds, `ms`
/// and `msec` milliseconds, `m` and `min` minutes, `h` and `hr` hours. It ends at 24 hours.
pub fn read_duration(text: &[u8]) -> Result<u64, DurationFault>
    ensures value { result ≡ duration text.now }
    ensures within { IfOk result (λ ms. ms ≤ DAY) }
{
    let Some(first) = text.first() else {
        return Err(DurationFault::Empty);
    };
    if !first.is_ascii_digit() {
        return Err(DurationFault::NoDigits);
    }
    let (digits, rest) = split_digits(text);
    let Some(unit) = unit_of(rest) else {
        return Err(DurationFault::BadUnit);
    };
    match value_up_to(digits, DAY / unit) {
        Some(count) => Ok(count * unit),
        None => Err(DurationFault::TooLarge),
    }
}

/// The digits that a text begins with, and what follows them.
fn split_digits(text: &[u8]) -> (&[u8], &[u8])
    ensures digits { result.0.now ≡ take_while is_ascii_digit text.now }
    ensures all { IsTrue (list_all is_ascii_digit result.0.now) }
    ensures rest { result.1.now ≡ after_digits text.now }
{
    text.split_at(count_digits(text))
}

/// How many digits a text begins with.
fn count_digits(text: &[u8]) -> usize
    ensures count { result ≡ prefix_len is_ascii_digit text.now }
    ensures within { result ≤ length text.now }
{
    text.iter().take_while(|b| b.is_ascii_digit()).count()
}

/// The milliseconds of a unit.
fn unit_of(text: &[u8]) -> Option<u64>
    ensures { result ≡ unit text.now }
{
    match text {
        b"" | b"s" | b"sec" => Some(1_000),
        b"ms" | b"msec" => Some(1),
        b"m" | b"min" => Some(60_000),
        b"h" | b"hr" => Some(3_600_000),
        _ => None,
    }
}
