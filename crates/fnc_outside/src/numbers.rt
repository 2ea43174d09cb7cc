// Numbers of calls.

ghost use Rattle.std.specs.Prelude.{◌≡◌, ◌==◌};
ghost use Rattle.std.specs.List.{list_any};

/// Whether the number is listed.
pub(crate) fn lists(numbers: &[u32], number: u64) -> bool
    ensures { result ≡ list_any (λ listed. listed == number) numbers.now }
{
    numbers.iter().any(|listed| u64::from(*listed) == number)
}
