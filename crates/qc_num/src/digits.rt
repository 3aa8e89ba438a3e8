//! Numbers in plain decimal.

ghost use Rattle.std.specs.Prelude.{◌≡◌, ◌≤◌, ◌<◌, ◌^◌, length, IfSome, IsTrue};
ghost use Rattle.std.specs.Char.{is_ascii_digit};
ghost use Rattle.std.specs.List.{list_all};
ghost use Rattle.std.specs.Str.Parse.{digits_value};
ghost use Rattle.qc_num.specs.Digits.{is_plain, number_in};

/// Whether each byte is a digit.
pub fn are_digits(text: &[u8]) -> bool
    ensures { result ≡ list_all is_ascii_digit text.now }
{
    text.iter().all(|b| b.is_ascii_digit())
}

/// Whether the text is plain decimal of at most so many digits.
fn is_plain(text: &[u8], most: usize) -> bool
    ensures { result ≡ is_plain most text.now }
{
    are_digits(text)
        && 1 <= text.len()
        && text.len() <= most
        && (text.len() == 1 || text[0] != b'0')
}

/// The number that at most 19 digits write.
pub fn value_of_digits(digits: &[u8]) -> u64
    requires few { length digits.now ≤ 19 }
    requires digits { IsTrue (list_all is_ascii_digit digits.now) }
    ensures value { result ≡ digits_value 10 digits.now }
    ensures bound { result < 10 ^ length digits.now }
{
    let mut number = 0;
    for digit in digits {
        number = number * 10 + u64::from(*digit - b'0');
    }
    number
}

/// The number that the text is in plain decimal of at most so many digits: `0`, or digits of which
/// the first isn't `0`.
pub fn plain_number(text: &[u8], most: usize) -> Option<u64>
    requires { most ≤ 19 }
    ensures number { result ≡ number_in most text.now }
    ensures small { IfSome result (λ number. number < 10 ^ most) }
{
    if is_plain(text, most) {
        Some(value_of_digits(text))
    } else {
        None
    }
}
