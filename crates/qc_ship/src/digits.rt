//! Digits of small numbers.

ghost use Rattle.std.specs.Prelude.{◌≡◌, ◌<◌, ◌+◌, ◌/◌, ◌%◌};

/// The two digits of a number below 100.
pub(crate) fn two_digits(number: u8) -> (u8, u8)
    requires { number < 100 }
    ensures tens { result.0 ≡ 48 + number / 10 }
    ensures ones { result.1 ≡ 48 + number % 10 }
{
    (b'0' + number / 10, b'0' + number % 10)
}
