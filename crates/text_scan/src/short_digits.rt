//! Digits that are read in one pass.

ghost use Rattle.std.specs.Prelude.{◌≡◌, ◌+◌, ◌≤◌, length, take, drop, IfSome};
ghost use Rattle.std.specs.Char.{is_ascii_digit};
ghost use Rattle.std.specs.List.{prefix_len};
ghost use Rattle.std.specs.Str.Parse.{digits_value};

/// How many digits are read in one pass at most: so many always fit 64 bits.
const MOST: usize = 18;

/// Digits of a text.
#[derive(Clone, Copy, Drop)]
pub struct ShortDigits {
    /// The place behind them.
    pub end: usize,
    pub value: u64,
}

/// All digits from `at` on, where they are few.
pub fn short_digits(bytes: &[u8], at: usize) -> Option<ShortDigits>
    requires { at ≤ length bytes.now }
    ensures end { IfSome result (λ digits. digits.end ≡ at + prefix_len is_ascii_digit (drop at bytes.now)) }
    ensures within { IfSome result (λ digits. digits.end ≤ length bytes.now) }
    ensures value { IfSome result (λ digits. digits.value ≡ digits_value 10 (take (prefix_len is_ascii_digit (drop at bytes.now)) (drop at bytes.now))) }
{
    let mut value = 0u64;
    for i in at..bytes.len() {
        let byte = bytes[i];
        if !byte.is_ascii_digit() {
            return Some(ShortDigits { end: i, value });
        }
        if i - at == MOST {
            return None;
        }
        value = value * 10 + u64::from(byte - b'0');
    }
    Some(ShortDigits {
        end: bytes.len(),
        value,
    })
}
