//! Decimal digits, and the numbers that they write.

ghost use Rattle.std.specs.Prelude.{◌≡◌, ◌≤◌, ◌-◌, ◌^◌, length, min, pos, IsTrue, IfSome};
ghost use Rattle.std.specs.Char.{is_ascii_digit};
ghost use Rattle.std.specs.List.{position_or_len, list_all};
ghost use Rattle.std.specs.Str.Parse.{digits_value};
ghost use Rattle.text_scan.specs.Within.{within};
ghost use Rattle.cert_text.specs.Digits.{is_digits, is_slash};

/// Whether the bytes are one digit or more, and nothing else.
pub(crate) fn is_digits(bytes: &[u8]) -> bool
    ensures { result ≡ is_digits bytes.now }
{
    !bytes.is_empty() && are_digits(bytes)
}

fn are_digits(bytes: &[u8]) -> bool
    ensures { result ≡ list_all is_ascii_digit bytes.now }
{
    bytes.iter().all(|b| b.is_ascii_digit())
}

/// The value of digits, or the greatest number of 128 bits where that is less.
pub(crate) fn value_of(digits: &[u8]) -> u128
    requires { IsTrue (list_all is_ascii_digit digits.now) }
    ensures { result ≡ min (digits_value 10 digits.now) (2 ^ 128 - 1) }
{
    let mut value = 0u128;
    for d in digits {
        value = value
            .saturating_mul(10)
            .saturating_add(u128::from(*d - b'0'));
    }
    value
}

/// The value of digits, where it is from `lo` to `hi`.
pub(crate) fn value_within(digits: &[u8], lo: u64, hi: u64) -> Option<u64>
    requires { IsTrue (list_all is_ascii_digit digits.now) }
    ensures value { result ≡ within lo hi (pos (digits_value 10 digits.now)) }
    ensures range { IfSome result (λ x. (lo ≤ x) × (x ≤ hi)) }
{
    let value = value_of(digits);
    if u128::from(lo) <= value && value <= u128::from(hi) {
        Some(value as u64)
    } else {
        None
    }
}

/// The place of the first `/`, or the length.
pub(crate) fn slash_in(bytes: &[u8]) -> usize
    ensures place { result ≡ position_or_len is_slash bytes.now }
    ensures within { result ≤ length bytes.now }
{
    for i in 0..bytes.len() {
        if bytes[i] == b'/' {
            return i;
        }
    }
    bytes.len()
}
